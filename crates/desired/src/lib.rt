// The desired speed over plain numbers (document 01, "Rules of each event"): D by the up-down lever, moved and held, and by a sign; E.
// `top` is the ceiling of D. A position stays a number, and D, B and h stay parameters: an open call takes any u32, a position above 4 as 4,
// and the laws vary the numbers one by one. An E of 0 is none, as in a record: an Option would have Some(0) for it too.
#![tactic(auto, using(kit::specs::Pick::picks))]

ghost use Rattle.std.specs.Prelude.{◌≡◌, ◌+◌, ◌-◌, min, max};
ghost use Rattle.desired.specs.Desired.{up5, up7, down5, down7, stepped, long_held, held, manual_after, sign_gives, sign_desired};

// The sum, at most top.
fn raised(top: u32, a: u32, b: u64) -> u32
    ensures { result ≡ min top (a + b) }
{
    u64::from(a).saturating_add(b).min(u64::from(top)) as u32
}

// The difference, at least 10.
fn lowered(a: u32, b: u64) -> u32
    ensures { result ≡ max 10 (a - b) }
{
    u64::from(a).saturating_sub(b).max(10) as u32
}

#[tactic(auto, using(kit::specs::Pick::picks), unfolding(crate::specs::Desired::up5))]
fn up5(top: u32, d: u32) -> u32
    ensures { result ≡ up5 top d }
{
    raised(top, d, 10)
}

#[tactic(auto, using(kit::specs::Pick::picks), unfolding(crate::specs::Desired::up7))]
fn up7(top: u32, d: u32) -> u32
    ensures { result ≡ up7 top d }
{
    raised(top, d / 100 * 100, 100)
}

#[tactic(auto, using(kit::specs::Pick::picks), unfolding(crate::specs::Desired::down5))]
fn down5(d: u32) -> u32
    ensures { result ≡ down5 d }
{
    lowered(d, 10)
}

#[tactic(auto, using(kit::specs::Pick::picks), unfolding(crate::specs::Desired::down7, crate::specs::Desired::hundred_below))]
fn down7(d: u32) -> u32
    ensures { result ≡ down7 d }
{
    (d.saturating_sub(1) / 100 * 100).max(10)
}

// D after a move to the position with cruise on.
#[tactic(auto, using(kit::specs::Pick::picks), unfolding(crate::specs::Desired::stepped))]
pub fn stepped(top: u32, position: u32, d: u32) -> u32
    ensures { result ≡ stepped top position d }
{
    match position {
        1 => up5(top, d),
        2 => up7(top, d),
        3 => down5(d),
        _ => down7(d),
    }
}

// D after h seconds at the position, for h of 2 and more. The way that D has gone is worked out in 64 bits, so that no h is too large.
#[tactic(auto, using(kit::specs::Pick::picks), unfolding(crate::specs::Desired::long_held))]
pub fn long_held(top: u32, position: u32, base: u32, h: u32) -> u32
    ensures { result ≡ long_held top position base h }
{
    match position {
        1 => raised(top, base, u64::from(h.saturating_sub(1)) * 10),
        2 => raised(top, base / 100 * 100, u64::from(h / 2) * 100),
        3 => lowered(base, u64::from(h.saturating_sub(1)) * 10),
        _ => lowered(base / 100 * 100, u64::from(h / 2) * 100),
    }
}

// D after h seconds at the position that left the base.
#[tactic(auto, using(kit::specs::Pick::picks), unfolding(crate::specs::Desired::held))]
pub fn held(top: u32, position: u32, base: u32, h: u32) -> u32
    ensures { result ≡ held top position base h }
{
    if h < 2 {
        return base;
    }
    long_held(top, position, base, h)
}

// E by the D that an event of the lever left.
#[tactic(auto, using(kit::specs::Pick::picks), unfolding(crate::specs::Desired::manual_after))]
pub fn manual_after(d: u32, e: u32) -> u32
    ensures { result ≡ manual_after d e }
{
    if d >= 1200 {
        return d;
    }
    e
}

// D by a sign of 200 or more, by its value, D and E, before it is cut.
#[tactic(auto, using(kit::specs::Pick::picks), unfolding(crate::specs::Desired::sign_gives))]
fn sign_gives(s: u32, d: u32, e: u32) -> u32
    ensures { result ≡ sign_gives s d e }
{
    if s <= 1300 {
        return s;
    }
    if d < 1200 {
        return 1200;
    }
    if e > 0 {
        return e;
    }
    d
}

// D by a sign that acts.
#[tactic(auto, using(kit::specs::Pick::picks), unfolding(crate::specs::Desired::sign_desired))]
pub fn sign_desired(top: u32, s: u32, d: u32, e: u32) -> u32
    ensures { result ≡ sign_desired top s d e }
{
    if s < 200 {
        return d;
    }
    sign_gives(s, d, e).min(top)
}
