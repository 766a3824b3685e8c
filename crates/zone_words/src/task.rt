//! What words ask.

use crate::Command;
use crate::answer_form::AnswerForm;
use crate::instant::Asked as Instant;
use civil_base::{Date, PlainDateTime, Time};

/// What an alarm does whose time of day is skipped on a day.
#[derive(Clone, Copy, Debug, PartialEq, Eq)]
pub enum GapRule {
    /// It doesn't ring.
    Skip,
    /// It rings by the offset before the change.
    Before,
    /// It rings by the offset after the change.
    After,
}

/// What an alarm does whose time of day comes twice on a day.
#[derive(Clone, Copy, Debug, PartialEq, Eq)]
pub enum FoldRule {
    /// It rings the first time.
    First,
    /// It rings the second time.
    Second,
    /// It rings both times.
    Both,
}

/// An alarm.
#[derive(Clone, Copy, Debug, PartialEq, Eq)]
pub struct Alarm {
    /// The time of day.
    pub time: Time,
    /// The first day.
    pub first: Date,
    /// How many days it rings on, where that is told. Else the last day is.
    pub count: Option<u16>,
    /// The last day, where that is told.
    pub until: Option<Date>,
    /// From each day to the next, so many days.
    pub every: u16,
    /// On which weekdays it rings, from Monday on.
    pub days: [bool; 7],
    /// What it does in gaps.
    pub gap: GapRule,
    /// What it does in folds.
    pub fold: FoldRule,
}

/// What is asked of the zones of a source.
#[derive(Drop)]
pub enum Task<'w> {
    /// What the command can do, or a command of it.
    Help(Option<Command>),
    /// Its version.
    Version,
    /// What clocks show at instants, of which there is one at least.
    At(&'w str, Vec<Instant>),
    /// The instants of a local time.
    Local(&'w str, PlainDateTime),
    /// The readings in the second zone of a local time in the first.
    Convert(&'w str, &'w str, PlainDateTime),
    /// The changes from one instant up to another, and the word of that.
    List(&'w str, Instant, Instant, &'w str),
    /// The rings of an alarm.
    Alarm(&'w str, Alarm),
    /// The names that have the word, or all.
    Names(Option<&'w str>),
    /// Answers as requests come, and whether in the form of `zone_answers`.
    Stream(bool),
    /// A log with local times in place of those at the front of its lines, or in the field of that number, which counts from 1.
    Log(&'w str, Option<u16>),
    /// The archive of all compiled files, and whether of zones to the end of 2099, where else they go on for ever.
    Tree(bool),
    /// A compiled file.
    File(&'w str),
    /// A string of POSIX.
    String(&'w str),
    /// A picture of the offsets of one to eight zones over a year.
    Chart(Vec<&'w str>, u16),
    /// The plain form of the source in that file.
    Plain(&'w str),
}

/// What words ask.
#[derive(Drop)]
pub struct Asked<'w> {
    /// The file of the source, where it is named: by a task, or by an option.
    pub source: Option<&'w str>,
    /// How answers are written.
    pub form: AnswerForm,
    /// What is to be done.
    pub task: Task<'w>,
}
