//! The kid that a walk goes on to: the first, some one, or the one with the lower level. Each is
//! alive, and whoever asks has shown that there is one; which of two is taken decides how long a
//! lasso gets, and nothing else.

ghost use Rattle.std.specs.Prelude.{◌≡◌, ◌<◌, length, true};
ghost use Rattle.std.specs.List.{AllByRecursion};
ghost use Rattle.tableau_rules.specs.Links.{Among, IsHead, kids_of};
ghost use Rattle.tableau_rules.specs.Levels.{Alive, alive_at, levelled_at, head_is, some_is};

use tableau_rules::Kids;

/// Whether the first kid is alive.
pub(crate) fn is_first_alive(kids: Kids, alive: &[bool]) -> bool
    requires { AllByRecursion (λ p. p < length alive.now) (kids_of kids) }
    ensures { result ≡ head_is (alive_at alive.now) (kids_of kids) }
{
    match kids {
        Kids::Leaf => false,
        Kids::One(a) | Kids::Two(a, _) => alive[a as usize],
    }
}

/// The first kid, where it is alive.
pub(crate) fn first_kid(kids: Kids, alive: &[bool]) -> u32
    requires { head_is (alive_at alive.now) (kids_of kids) ≡ true }
    ensures head { IsHead result (kids_of kids) }
    ensures alive { Alive alive.now result }
{
    match kids {
        Kids::Leaf => unreachable!(),
        Kids::One(a) | Kids::Two(a, _) => a,
    }
}

/// Some kid that is alive, where there is one.
pub(crate) fn some_kid(kids: Kids, alive: &[bool]) -> u32
    requires range { AllByRecursion (λ p. p < length alive.now) (kids_of kids) }
    requires some { some_is (alive_at alive.now) (kids_of kids) ≡ true }
    ensures kid { Among result (kids_of kids) }
    ensures alive { Alive alive.now result }
{
    match kids {
        Kids::Leaf => unreachable!(),
        Kids::One(a) => a,
        Kids::Two(a, b) => { if alive[a as usize] { a } else { b } }
    }
}

/// The kid with the lower level among those that are alive and have a level below the bound, where
/// there is one: it makes the walk shorter than the other would.
pub(crate) fn lower_kid(kids: Kids, alive: &[bool], levels: &[u32], bound: u32) -> u32
    requires size { length levels.now ≡ length alive.now }
    requires range { AllByRecursion (λ p. p < length alive.now) (kids_of kids) }
    requires some { some_is (levelled_at alive.now levels.now bound) (kids_of kids) ≡ true }
    ensures kid { Among result (kids_of kids) }
    ensures alive { levelled_at alive.now levels.now bound result ≡ true }
{
    match kids {
        Kids::Leaf => unreachable!(),
        Kids::One(a) => a,
        Kids::Two(a, b) => {
            if alive[a as usize]
                && levels[a as usize] < bound
                && !(alive[b as usize] && levels[b as usize] < levels[a as usize])
            {
                a
            } else {
                b
            }
        }
    }
}
