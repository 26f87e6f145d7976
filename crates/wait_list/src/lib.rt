// The wait list, which begins again at its end (document 02, CR 3): the one place of the code that says where.
#![tactic(auto, unfolding(model::specs::Waits::wait_at, model::specs::Waits::next_position, model::specs::Waits::position_fits))]

ghost use Rattle.std.specs.Prelude.{◌≡◌};
ghost use Rattle.model.specs.Waits.{wait_at, next_position, position_fits};

// The wait of an access at `position`; an empty list means none.
pub fn wait_at(waits: &[u16], position: usize) -> u16
    ensures { result ≡ wait_at waits.now position }
{
    waits.get(position).copied().unwrap_or(0)
}

// After the last entry the first. Of the highest position the sum goes round to 0, which is right there too.
pub fn next_position(waits: &[u16], position: usize) -> usize
    ensures { result ≡ next_position waits.now position }
{
    let next = position.wrapping_add(1);
    if next < waits.len() { next } else { 0 }
}

// Below the list's length, or 0 for an empty list.
pub fn position_fits(waits: &[u16], position: usize) -> bool
    ensures { result ≡ position_fits waits.now position }
{
    (position == 0) | (position < waits.len())
}
