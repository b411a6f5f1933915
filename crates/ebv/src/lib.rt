// EBV-8 pointers of a frame (RULES 3.6).
#![tactic(auto)]

ghost use Rattle.std.specs.Prelude.{◌≡◌, ◌^◌, ◌≤◌, ◌<◌, IfSome};
ghost use Rattle.ebv.specs.Ebv.{meaning, pointer_at};

// A pointer's value, and how many bytes it took, at most three.
#[derive(Clone, Copy, Debug, PartialEq, Eq)]
pub struct Pointer {
    pub value: u32,
    pub bytes: usize,
}

// The pointer that begins at bit `at` of a frame of n bits. None is malformed: a third group goes on, or the frame does not hold a group.
pub fn read(frame: &[u8], n: usize, at: usize) -> Option<Pointer>
    requires { at < 2 ^ 61 }
    ensures says { meaning result ≡ pointer_at frame.now n at }
    ensures few { IfSome result (λ p. p.bytes ≤ 3) }
{
    let mut acc: u32 = 0;
    for k in 0..3 {
        let here = at + 8 * k;
        if n < here + 8 {
            return None;
        }
        let g = bits::field(frame, here, 8) as u32;
        if g < 128 {
            return Some(Pointer {
                value: acc * 128 + g,
                bytes: k + 1,
            });
        }
        acc = acc * 128 + (g - 128);
    }
    None
}
