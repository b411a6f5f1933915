// Which replies answer a command (RULES 12.5).
ghost use Rattle.std.specs.Prelude.{◌≡◌};
ghost use Rattle.depot.specs.Reading.{awaited_by};

use crate::Command;
use readings::Awaited;

pub fn kind_of(command: Command) -> Option<Awaited>
    ensures { result ≡ awaited_by command }
{
    match command {
        Command::QueryRep(_) | Command::Query(_) | Command::QueryAdjust(..) => Some(Awaited::Drawn),
        Command::Ack => Some(Awaited::Epc),
        Command::Select(..) | Command::Nak => None,
        Command::ReqRn => Some(Awaited::Renewed),
        Command::Read(_, count) | Command::ReadPermalock(_, count) => Some(Awaited::Words(count)),
        Command::Kill(_) => Some(Awaited::Half),
        Command::Access(_) => Some(Awaited::Handle),
        Command::Write(..)
        | Command::Lock(..)
        | Command::BlockWrite(_)
        | Command::BlockErase(..)
        | Command::Permalock(_) => Some(Awaited::Done),
    }
}
