// A listing: every item of a walk, shown one after the other.
ghost use Rattle.std.specs.Prelude.{◌≤◌};

// Every item of a walk, at most so many, and how many there are. A step gives an item, and the walk that goes on.
pub fn show_walk<W: Copy, T: Copy, S: Fn(W) -> Option<(T, W)>, F: Fn(T)>(
    most: usize,
    first: W,
    step: S,
    show: F,
) -> usize
    requires { S.IsAlwaysCallable step × F.IsAlwaysCallable show }
    ensures { result ≤ most }
{
    let mut walk = first;
    for count in 0..most {
        let Some((item, next)) = step(walk) else {
            return count;
        };
        show(item);
        walk = next;
    }
    most
}
