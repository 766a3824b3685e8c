//! The commands.
ghost use Rattle.std.specs.Prelude.{◌≡◌, map};
ghost use Rattle.zone_words.specs.{Commands.{command_named, has_objects, is_alarm_option, standing_for, takes, tells_times}, Shown.{row_shown}};

/// A command.
#[derive(Clone, Copy, Debug, PartialEq, Eq)]
pub enum Command {
    /// The local time of instants.
    At,
    /// The instants of a local time.
    Local,
    /// The readings in one zone of a local time in another.
    Convert,
    /// The changes of a window.
    List,
    /// The rings of an alarm.
    Alarm,
    /// The names.
    Names,
    /// Answers as requests come.
    Stream,
    /// A log with local times.
    Log,
    /// A tree of compiled files.
    Tree,
    /// A compiled file.
    File,
    /// A string of POSIX.
    String,
    /// A picture of offsets.
    Chart,
    /// The plain form of a source.
    Plain,
}

/// What the first row stands for whose text is the word.
pub(crate) fn standing_for<T: Copy>(rows: &[(&str, T)], word: &str) -> Option<T>
    ensures { result ≡ standing_for (map row_shown rows.now) word.now }
{
    for row in rows {
        if word == row.0 {
            return Some(row.1);
        }
    }
    None
}

/// The command of that name.
pub(crate) fn command_named(word: &str) -> Option<Command>
    ensures { result ≡ command_named word.now }
{
    match word {
        "at" => Some(Command::At),
        "local" => Some(Command::Local),
        "convert" => Some(Command::Convert),
        "list" => Some(Command::List),
        "alarm" => Some(Command::Alarm),
        "names" => Some(Command::Names),
        "stream" => Some(Command::Stream),
        "log" => Some(Command::Log),
        "tree" => Some(Command::Tree),
        "file" => Some(Command::File),
        "string" => Some(Command::String),
        "chart" => Some(Command::Chart),
        "plain" => Some(Command::Plain),
        _ => None,
    }
}

/// Whether it is an option of `alarm` alone.
fn is_alarm_option(name: &str) -> bool
    ensures { result ≡ is_alarm_option name.now }
{
    matches!(
        name,
        "--from" | "--count" | "--until" | "--every" | "--on" | "--gap" | "--fold"
    )
}

/// Whether the command writes times, which have a form.
fn tells_times(command: Command) -> bool
    ensures { result ≡ tells_times command }
{
    !matches!(
        command,
        Command::Names
            | Command::Tree
            | Command::File
            | Command::String
            | Command::Chart
            | Command::Plain
    )
}

/// Whether the command writes what an object can have.
fn has_objects(command: Command) -> bool
    ensures { result ≡ has_objects command }
{
    !matches!(
        command,
        Command::Log
            | Command::Tree
            | Command::File
            | Command::String
            | Command::Chart
            | Command::Plain
    )
}

/// Whether the command takes the option.
pub(crate) fn takes(command: Command, name: &str) -> bool
    ensures { result ≡ takes command name.now }
{
    if is_alarm_option(name) {
        return matches!(command, Command::Alarm);
    }
    match name {
        "--plain" => matches!(command, Command::Stream),
        "--field" => matches!(command, Command::Log),
        "--to-2099" => matches!(command, Command::Tree),
        "--source" => !matches!(command, Command::Plain),
        "--json" => has_objects(command),
        "--rfc3339" | "--epoch" => tells_times(command),
        _ => true,
    }
}
