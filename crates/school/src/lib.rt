// A log that is judged: what one of its lines says, and what is found.
#![tactic(auto)]

use plan::Answer;

// A task's start or end: the place of the task, which is 0 for task 1, the board and the tick.
#[derive(Clone, Copy)]
pub struct Moment {
    pub place: usize,
    pub board: u32,
    pub tick: u32,
}

// What a line that has its form says: a start, an end, or neither.
#[derive(Clone, Copy)]
pub enum LogLine {
    Start(Moment),
    End(Moment),
    Remark,
}

// The answer; 1 for each task with one start and one end in the log, and their ticks.
#[repr(C)]
#[derive(Drop)]
pub struct JudgedLog {
    pub answer: Answer,
    pub known: [u8; 64],
    pub start: [u32; 64],
    pub end: [u32; 64],
}
