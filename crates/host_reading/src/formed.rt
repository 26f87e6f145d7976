// Whether what is lent has the layout's lengths.
ghost use Rattle.std.specs.Prelude.{◌≡◌};
ghost use Rattle.host_reading.specs.Layout.{lent_formed};

// Whether a machine or a state of a size has so many words, and a result so many places as are due.
pub fn lent_formed(size: usize, due: usize, words: usize, places: usize) -> bool
    ensures { result ≡ lent_formed size due words places }
{
    (words == size) & (places == due)
}
