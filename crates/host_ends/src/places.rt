// The places of a lent result. One of another length is left as it was.
ghost use Rattle.std.specs.Prelude.{◌≡◌};
ghost use Rattle.host_words.specs.Words.{laid};

pub fn put_result<const N: usize>(numbers: [u64; N], res: &mut [u64])
    ensures { res.new ≡ laid N numbers.entry res.old }
{
    if res.len() == N {
        res.copy_from_slice(&numbers);
    }
}
