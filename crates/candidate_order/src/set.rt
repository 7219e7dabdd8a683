// Sets of activities as 16-bit numbers, by operations on their bits: document 01, "Candidates and
// their order" and the last paragraph of "The walk".
ghost use Rattle.std.specs.Prelude.{◌≡◌, true, ℕ, ◌^◌, ◌≤◌, ◌<◌};
ghost use Rattle.limits.specs.Settings.{most_activities};
ghost use Rattle.places.specs.Sets.{size, within};
ghost use Rattle.places.specs.Candidates.{candidate_set, sets};
ghost use Rattle.places.specs.Succession.{set_after, set_past};
ghost use Rattle.candidate_order_spec.proofs.laws.Highest.{HighestCode};

// Whether every code of a set is one of another.
#[tactic(auto, using(candidate_order_spec::proofs::laws::BitOperations::shared_is_within))]
pub fn is_within(set: u16, of: u16) -> bool
    ensures { result ≡ within set of }
{
    set & of == set
}

// How many codes a set has.
#[tactic(auto, using(candidate_order_spec::proofs::laws::BitOperations::ones_size))]
pub fn size_of(set: u16) -> u32
    ensures { result ≡ size set }
{
    set.count_ones()
}

// The highest code of a set.
fn highest(set: u16) -> u32
    requires { 0 < set }
    ensures { HighestCode result set }
{
    set.ilog2()
}

// The set after a given one in the stated order, 0 after the last: with the code above its highest
// added, where there is room for it.
pub fn set_after(activities: u8, most: u8, set: u16) -> u16
    requires { (activities ≤ most_activities) × (candidate_set activities most set ≡ true) }
    ensures { result ≡ set_after set (sets activities most) }
{
    let next = highest(set) + 1;
    if next < u32::from(activities) && size_of(set) < u32::from(most) {
        return set + (1 << next);
    }
    set_past(activities, set)
}

// The first set after a given one that does not extend it, 0 where there is none: with its highest
// code moved up by one, or without that code and the next one moved up.
pub fn set_past(activities: u8, set: u16) -> u16
    requires { (activities ≤ most_activities) × (0 < set) × (set < 2 ^ activities) }
    ensures { (most : ℕ) → candidate_set activities most set ≡ true → result ≡ set_past set (sets activities most) }
{
    let code = highest(set);
    let bit = 1 << code;
    if code + 1 < u32::from(activities) {
        return set + bit;
    }
    let rest = set - bit;
    if rest == 0 {
        return 0;
    }
    rest + (1 << highest(rest))
}
