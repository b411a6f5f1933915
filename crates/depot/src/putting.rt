// A frame into a lent room (RULES 12.2).
ghost use Rattle.std.specs.Prelude.{◌*◌, ◌≤◌, ◌≡◌, length};
ghost use Rattle.replies.specs.Pack.{packed};
ghost use Rattle.fields.specs.Steps.{seal_bits};
ghost use Rattle.depot.specs.Steps.{Narrow, total_of, open_bits};

use crate::laying::Layout;
use fields::Pen;

// A frame's numbers and payload, and its check behind them.
pub fn put(room: &mut [u8], l: Layout, payload: &[u8])
    requires { Narrow l × (total_of l ≤ 8 * length room.old) }
    ensures { room.new ≡ packed (seal_bits l.check (open_bits l payload.now)) room.old }
{
    let mut pen = Pen { room, at: 0 };
    pen.put_field(l.front);
    pen.put_field(l.middle);
    pen.put_field(l.back);
    pen.put_payload(payload, l.body);
    pen.put_field(l.tail);
    pen.put_check(l.check);
}
