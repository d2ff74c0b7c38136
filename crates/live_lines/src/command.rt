//! The commands of a live session.
ghost use Rattle.live_lines.specs.Requests.{commands, command_word};

use script_grammar::HasWord;

/// A command, by the first word of a line. A line that begins with no such word is an edit.
#[derive(Debug, Clone, Copy)]
pub enum Command {
    /// `neutral EDIT`
    Neutral,
    Undo,
    Redo,
    /// `note LENGTH BANK NUMBER KEY VELOCITY`
    Note,
    /// `press BANK NUMBER KEY VELOCITY`
    Press,
    /// `release BANK NUMBER KEY`
    Release,
    /// `pedal on BANK NUMBER`, or `off`
    Pedal,
    Silence,
    Stop,
    /// `frames N`
    Frames,
    /// `record NOTES`
    Record,
    /// `save OUT UNDO`
    Save,
    Voices,
    Meter,
    Show,
    Help,
    Quit,
}

static COMMANDS: [Command; 17] = [
    Command::Neutral,
    Command::Undo,
    Command::Redo,
    Command::Note,
    Command::Press,
    Command::Release,
    Command::Pedal,
    Command::Silence,
    Command::Stop,
    Command::Frames,
    Command::Record,
    Command::Save,
    Command::Voices,
    Command::Meter,
    Command::Show,
    Command::Help,
    Command::Quit,
];

impl HasWord for Command {
    ghost all = { commands };

    ghost word_of = { command_word };

    fn all() -> &'static [Command] {
        &COMMANDS
    }

    fn word(self) -> &'static [u8] {
        match self {
            Command::Neutral => b"neutral",
            Command::Undo => b"undo",
            Command::Redo => b"redo",
            Command::Note => b"note",
            Command::Press => b"press",
            Command::Release => b"release",
            Command::Pedal => b"pedal",
            Command::Silence => b"silence",
            Command::Stop => b"stop",
            Command::Frames => b"frames",
            Command::Record => b"record",
            Command::Save => b"save",
            Command::Voices => b"voices",
            Command::Meter => b"meter",
            Command::Show => b"show",
            Command::Help => b"help",
            Command::Quit => b"quit",
        }
    }
}
