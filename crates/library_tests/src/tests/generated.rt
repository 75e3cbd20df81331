// What no clause says: that there is memory for a ball.
use hex_geometry::{Pos, ball};

#[test]
fn a_ball_of_radius_six_has_127_positions(rt: HostRuntime) {
    let found = ball(rt.alloc(), Pos { x: 18, y: 7 }, 6).expect(&rt, "there is memory");
    assert_eq!(rt; found.len(), 127);
}
