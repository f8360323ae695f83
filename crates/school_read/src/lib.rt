// What a line of a judged log says. Each field is looked for where the one before it ends.
// A log that is judged, read once: the lowest line without its form, or what is said of each task.
#![tactic(auto)]

ghost use Rattle.std.specs.Prelude.{◌≡◌, ◌≤◌, ◌<◌, true, false, ◌∷◌};
ghost use Rattle.laws.specs.Split.{split_on};
ghost use Rattle.text.specs.Line.{LF};
ghost use Rattle.plan.specs.Read.{ranged};
ghost use Rattle.school.specs.Lines.{is_earliness, is_run, says_none, later_said, said_from};
ghost use Rattle.school.specs.Said.{said};
ghost use Rattle.school_read.specs.Private.Rest.{number_in, moment_in, two_ticks, three_ticks, remark_rest};
ghost use Rattle.school_read.specs.Private.Noted.{with_one, none_noted, noted_at, IsPlaced, found_with};
ghost use Rattle.school_read.specs.Found.{lines_read, found_of};

use plan::few;
use school::{LogLine, Moment};
use text::decimal::NUMBER_MOST;
use text::part::{LF, TAB, count_fields, field, find, part_before, past, same};
use text_fields::faults::read_ranged;

// A number from low to high.
fn number_in(field: &[u8], low: u32, high: u32) -> Option<u32>
    requires { high ≤ 1000000 }
    ensures { result ≡ number_in low high field.now }
{
    read_ranged(field, low, high).ok()
}

fn is_ranged(field: &[u8], low: u32, high: u32) -> bool
    requires { high ≤ 1000000 }
    ensures { result ≡ ranged low high field.now }
{
    number_in(field, low, high).is_some()
}

// A number, or `-` before one that is not 0.
fn is_earliness(field: &[u8]) -> bool
    ensures { result ≡ is_earliness field.now }
{
    if field.is_empty() {
        return false;
    }
    if field[0] == b'-' {
        return is_ranged(past(field, 0), 1, NUMBER_MOST);
    }
    is_ranged(field, 0, NUMBER_MOST)
}

// The first line: once a log, so its fields are looked for from its beginning.
pub fn is_run(boards: u8, tasks: u8, line: &[u8]) -> bool
    ensures { result ≡ is_run boards tasks line.now }
{
    let count = count_fields(line);
    let run = same(field(line, 0), b"run");
    let first = same(field(line, 1), b"1");
    let second = same(field(line, 1), b"2");
    let clash = same(field(line, 4), b"clash");
    let (boards, tasks) = (u32::from(boards), u32::from(tasks));
    let of_boards = is_ranged(field(line, 2), boards, boards);
    let of_tasks = is_ranged(field(line, 3), tasks, tasks);
    ((((count == 4) & run) & first) | (((count == 5) & run) & (second & clash)))
        & (of_boards & of_tasks)
}

// What a `start` or an `end` line says past its word. Ticks early with a tab in them are misspelt.
fn read_moment(boards: u8, tasks: u8, rest: &[u8]) -> Option<Moment>
    ensures { result ≡ moment_in boards tasks rest.now }
{
    let task_field = part_before(rest, TAB);
    let from_board = past(rest, task_field.len());
    let board_field = part_before(from_board, TAB);
    let from_tick = past(from_board, board_field.len());
    let tick_field = part_before(from_tick, TAB);
    let early = past(from_tick, tick_field.len());
    if tick_field.len() == from_tick.len() || !is_earliness(early) {
        return None;
    }
    let task = number_in(task_field, 1, u32::from(tasks))?;
    let board = number_in(board_field, 1, u32::from(boards))?;
    let tick = number_in(tick_field, 0, NUMBER_MOST)?;
    Some(Moment {
        place: (task - 1) as usize,
        board,
        tick,
    })
}

fn two_ticks(rest: &[u8]) -> bool
    ensures { result ≡ two_ticks rest.now }
{
    let first = part_before(rest, TAB);
    let second = past(rest, first.len());
    (first.len() < rest.len())
        & (is_ranged(first, 0, NUMBER_MOST) & is_ranged(second, 0, NUMBER_MOST))
}

fn three_ticks(rest: &[u8]) -> bool
    ensures { result ≡ three_ticks rest.now }
{
    let first = part_before(rest, TAB);
    let others = past(rest, first.len());
    (first.len() < rest.len()) & (is_ranged(first, 0, NUMBER_MOST) & two_ticks(others))
}

fn is_remark(word: &[u8], rest: &[u8]) -> bool
    ensures { result ≡ remark_rest word.now rest.now }
{
    if same(word, b"early") {
        return two_ticks(rest);
    }
    if same(word, b"refused") {
        return three_ticks(rest);
    }
    false
}

// A line after the first, without its LF. `None` is a line without its form.
pub fn said(boards: u8, tasks: u8, line: &[u8]) -> Option<LogLine>
    ensures { said result ≡ later_said boards tasks line.now }
{
    let word = part_before(line, TAB);
    if word.len() == line.len() {
        return None;
    }
    let rest = past(line, word.len());
    if same(word, b"start") {
        return Some(LogLine::Start(read_moment(boards, tasks, rest)?));
    }
    if same(word, b"end") {
        return Some(LogLine::End(read_moment(boards, tasks, rest)?));
    }
    is_remark(word, rest).then_some(LogLine::Remark)
}

// The starts, or the ends, in a log. Place i is that of task i + 1: how many there are, 2 for more, and board and tick of the first.
// Flat arrays of numbers can be lent, an array of structs cannot.
#[derive(Drop)]
pub struct Noted {
    pub many: [u8; 64],
    pub board: [u32; 64],
    pub tick: [u32; 64],
}

impl Noted {
    fn none() -> Noted
        ensures { result ≡ none_noted }
    {
        Noted {
            many: [0; 64],
            board: [0; 64],
            tick: [0; 64],
        }
    }

    // One more. The first of a task is the one that is kept.
    fn note(&mut self, moment: Moment)
        requires { moment.place < 64 }
        ensures { self.new ≡ noted_at moment.place self.old moment.board moment.tick }
    {
        let i = moment.place;
        if self.many[i] == 0 {
            self.many[i] = 1;
            self.board[i] = moment.board;
            self.tick[i] = moment.tick;
        } else {
            self.many[i] = 2;
        }
    }
}

// And how many lines say no start, and no end: one, 2 for more. The first line says neither.
#[derive(Drop)]
pub struct Found {
    pub starts: Noted,
    pub ends: Noted,
    pub startless: u8,
    pub endless: u8,
}

// One, or more.
fn with_one(n: u8) -> u8
    ensures { result ≡ with_one n }
{
    n.min(1) + 1
}

impl Found {
    fn note(&mut self, line: LogLine)
        requires { IsPlaced line }
        ensures { self.new ≡ found_with self.old line }
    {
        match line {
            LogLine::Start(moment) => {
                self.starts.note(moment);
                self.endless = with_one(self.endless);
            }
            LogLine::End(moment) => {
                self.ends.note(moment);
                self.startless = with_one(self.startless);
            }
            LogLine::Remark => {
                self.startless = with_one(self.startless);
                self.endless = with_one(self.endless);
            }
        }
    }
}

// The lines after the first. The error is the lowest one without its form; the first is 1.
// It goes on by the rest of the text.
fn read_later(boards: u8, tasks: u8, later: &[u8]) -> Result<Found, usize>
    requires { tasks ≤ 64 }
    ensures { result ≡ lines_read (says_none true ∷ said_from boards tasks false (split_on LF later.now)) }
{
    let mut found = Found {
        starts: Noted::none(),
        ends: Noted::none(),
        startless: 1,
        endless: 1,
    };
    let mut lines = 1;
    let mut rest = later;
    while !rest.is_empty() {
        let end = find(rest, LF);
        lines += 1;
        if end == rest.len() {
            return Err(lines);
        }
        let Some(line) = said(boards, tasks, &rest[..end]) else {
            return Err(lines);
        };
        found.note(line);
        rest = past(rest, end);
    }
    Ok(found)
}

// The error is the lowest line without its form, from 1.
pub fn read_log(boards: u8, tasks: u8, log: &[u8]) -> Result<Found, usize>
    ensures { result ≡ found_of boards tasks log.now }
{
    let most = few(tasks);
    let end = find(log, LF);
    if end == log.len() || !is_run(boards, most, &log[..end]) {
        return Err(1);
    }
    read_later(boards, most, past(log, end))
}
