// Worked cases of the layout, as one list: the rules accept each, and its size and bits are as written there.
ghost use Rattle.std.specs.Prelude.{◌≡◌, length};
ghost use Rattle.layout.specs.Worked.{cases, Worked};

// How many worked cases there are. That each of them holds is what this function is for.
pub fn worked_cases() -> usize
    ensures count { result ≡ length cases }
    ensures hold { Worked }
{
    9
}
