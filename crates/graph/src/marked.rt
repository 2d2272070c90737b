// Links chosen by a byte for each: 1 for chosen.
ghost use Rattle.std.specs.Prelude.{◌≡◌, ◌≤◌, length, take};
ghost use Rattle.base_lists.specs.Below.{count_below};
ghost use Rattle.graph.specs.Chosen.{picked};
ghost use Rattle.graph.specs.Search.{inside};

// Moves the marked entries to the front, in their order, and returns how many there are.
pub fn choose(marks: &[u8], xs: &mut [u16]) -> usize
    requires { length marks.now ≡ length xs.old }
    ensures { (result ≤ length xs.new)
        × (take result xs.new ≡ picked marks.now xs.old) }
{
    let mut k = 0;
    for (i, &mark) in marks.iter().enumerate() {
        if mark == 1 {
            xs[k] = xs[i];
            k += 1;
        }
    }
    k
}

// How many bytes are 1.
pub fn count(marks: &[u8]) -> usize
    ensures { result ≡ count_below (length marks.now) (inside marks.now) }
{
    marks.iter().filter(|mark| **mark == 1).count()
}
