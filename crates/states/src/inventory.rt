// What the commands of inventory ask and count: Q, slot, a mask, an action's flag (RULES 11.3 to 11.5).
ghost use Rattle.std.specs.Prelude.{◌≡◌, ◌≤◌, ◌<◌, length};
ghost use Rattle.image.specs.Layout.{layout_of};
ghost use Rattle.states.specs.Inventory.{adjusted_q, counted_down, selects as selects_of, flag_after};

use frames::Span;

// Q up, down or as it is.
pub fn adjusted_q(u: u8, q: u8) -> u8
    ensures { result ≡ adjusted_q u q }
{
    match u {
        6 if q < 15 => q + 1,
        6 => 15,
        3 => q.saturating_sub(1),
        _ => q,
    }
}

// One slot less; after 0 comes 7FFFh.
pub fn counted_down(slot: u16) -> u16
    ensures { result ≡ counted_down slot }
{
    if slot == 0 { 0x7FFF } else { slot - 1 }
}

// A Select's mask, from bit `at` of the frame on, is the bank's bits.
pub fn selects(image: &[u8], s: Span, frame: &[u8], at: usize) -> bool
    requires in_bounds { 32 ≤ length image.now }
    requires at_bound { (at ≤ 51) × (s.count < 256) }
    ensures { result ≡ selects_of (layout_of image.now) image.now frame.now s at }
{
    let bank = rights::bank_in(image, s.bank);
    let bits = 16 * bank.words as usize;
    let first = s.pointer as usize;
    let count = s.count as usize;
    first < bits
        && first + count <= bits
        && bits::alike(image, 16 * bank.at as usize + first, frame, at, count)
}

// What an action makes of flag t, where the mask matches and where it does not.
pub fn flag_after(t: u8, action: u8, matching: bool, b: bool) -> bool
    ensures { result ≡ flag_after t action matching b }
{
    let one = t == 4;
    match action {
        0 => if matching { one } else { !one },
        1 => if matching { one } else { b },
        2 => if matching { b } else { !one },
        3 => if matching { !b } else { b },
        4 => if matching { !one } else { one },
        5 => if matching { !one } else { b },
        6 => if matching { b } else { one },
        _ => if matching { b } else { !b },
    }
}
