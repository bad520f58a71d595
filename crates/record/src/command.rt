//! What the commands of a record do.
ghost use Rattle.std.specs.Prelude.{◌≡◌};
ghost use Rattle.record.specs.Commands.{Names, first_byte};

use terms::ground::Ground;

/// What a command does. Its command byte is the case's value.
#[derive(Clone, Copy, PartialEq, Eq, Debug)]
pub enum Command {
    Hull = 0x01,
    Enter = 0x02,
    Amend = 0x03,
    Strike = 0x04,
    Lay = 0x05,
    End = 0xFF,
}

impl TryFrom<u8> for Command {
    type Error = Ground;

    ghost try_from_gives = { Names };

    fn try_from(byte: u8) -> Result<Command, Ground> {
        match byte {
            0x01 => Ok(Command::Hull),
            0x02 => Ok(Command::Enter),
            0x03 => Ok(Command::Amend),
            0x04 => Ok(Command::Strike),
            0x05 => Ok(Command::Lay),
            0xFF => Ok(Command::End),
            _ => Err(Ground::CommandUnknown),
        }
    }
}

/// The byte that begins the command.
impl From<Command> for u8 {
    ghost from_gives = { λ command byte. byte ≡ first_byte command };

    fn from(command: Command) -> u8 {
        command as u8
    }
}
