// The text that is being read, and a container in it.
ghost use Rattle.std.specs.Prelude.{◌+◌, ◌≤◌, ◌<◌};
ghost use Rattle.spec.specs.Limits.{max_nodes};
ghost use Rattle.tape.specs.Layout.{sources, scratch_row};

// Which of the two texts is read, and where its rows begin. The bytes are not in it: of a struct with a reference a
// clause names the entry or the exit, which is no plainer. Nor are `nodes` and `index`: the next item is found with the
// nodes only read.
#[derive(Clone, Copy)]
pub struct Source {
    pub number: u16,
    pub base: usize,
    ghost known: { number < sources },
    ghost low: { base + max_nodes ≤ scratch_row },
}

// A container that is being read: whether it is an object, in which text it stands, its own row, and the row behind its
// items so far.
#[derive(Clone, Copy)]
pub struct Container {
    pub object: bool,
    pub source: Source,
    pub row: usize,
    pub end: usize,
    ghost from_base: { source.base ≤ row },
    ghost grows: { row < end },
    ghost fits: { end ≤ source.base + max_nodes },
}
