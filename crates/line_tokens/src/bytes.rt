// Bytes that a token may not have.
ghost use Rattle.std.specs.Prelude.{◌≡◌};
ghost use Rattle.line_tokens.specs.Tokens.{is_bad_byte, has_bad_byte};

/// Whether a token has a bad byte: any byte except tab, LF, CR and 32 to 126 (this project's own). It takes no memory.
pub fn has_bad_byte(token: &[u8]) -> bool
    ensures { result ≡ has_bad_byte token.now }
{
    token.iter().any(|byte| is_bad_byte(*byte))
}

fn is_bad_byte(byte: u8) -> bool
    ensures { result ≡ is_bad_byte byte }
{
    !(byte == b'\t' || byte == b'\n' || byte == b'\r' || (32 <= byte && byte <= 126))
}
