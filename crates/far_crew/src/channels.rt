// The channels of one worker, on the crew's side.
use crate::found::Found;
use crate::job::Job;
use crossbeam_channel::{Receiver, Sender};
use spec_record::Look;
use std::alloc::Global;
use std::sync::Wait;

// A worker's two channels, whether both are open as far as the crew knows, whether an answer is due, the job that is
// ready for it, its last answer, and the room of older looks. One answer is kept in the line itself, so that no list
// grows in a window.
#[derive(Drop)]
pub struct WorkerChannels {
    jobs: Sender<Job>,
    answers: Receiver<Found>,
    is_open: bool,
    is_asked: bool,
    job: Option<Job>,
    pub found: Option<Found>,
    room: Option<Vec<Look>>,
}

impl WorkerChannels {
    // A line of these channels.
    pub fn of(jobs: Sender<Job>, answers: Receiver<Found>) -> WorkerChannels {
        WorkerChannels {
            jobs,
            answers,
            is_open: true,
            is_asked: false,
            job: None,
            found: None,
            room: None,
        }
    }

    // Whether the worker may still get a job.
    pub fn is_open(&self) -> bool {
        self.is_open
    }

    // Gives back what the last window shared with the worker; the room of its answer is kept.
    pub fn clear(&mut self) {
        self.job = None;
        self.is_asked = false;
        if let Some(found) = self.found.take() {
            self.room = Some(found.into_room());
        }
    }

    // The room of older looks, or a new one.
    pub fn take_room(&mut self, alloc: Global) -> Vec<Look> {
        self.room.take().unwrap_or_else(|| Vec::new(alloc))
    }

    // Makes this job ready.
    pub fn prepare(&mut self, job: Job) {
        self.job = Some(job);
    }

    // Sends the ready job, if there is one. If it can't be sent, the job is lost with its room, and the line is closed.
    pub fn ask<R: Wait>(&mut self, rt: &R) {
        if let Some(job) = self.job.take() {
            self.is_asked = self.jobs.send(rt, job).is_ok();
            self.is_open = self.is_asked;
        }
    }

    // Receives the answer, if one is due. If there will be none, the line is closed.
    pub fn take_in<R: Wait>(&mut self, rt: &R) {
        if self.is_asked {
            self.found = self.answers.recv(rt).ok();
            self.is_open = self.found.is_some();
        }
    }
}
