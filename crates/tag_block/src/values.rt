ghost use Rattle.std.specs.Prelude.{◌≡◌};
ghost use Rattle.tag_block.specs.Reading as spec;

/// The value of a parameter, and its place in the line.
#[derive(Clone, Copy)]
pub(crate) struct Value<'a> {
    pub(crate) place: usize,
    pub(crate) text: &'a [u8],
}

/// The last value of each code that says something here.
#[derive(Clone, Copy)]
pub(crate) struct Values<'a> {
    pub(crate) source: Option<Value<'a>>,
    pub(crate) destination: Option<Value<'a>>,
    pub(crate) group: Option<Value<'a>>,
    pub(crate) count: Option<Value<'a>>,
}

/// The values so far, and the rest of the line.
#[derive(Clone, Copy)]
pub(crate) struct Scan<'a> {
    pub(crate) values: Values<'a>,
    pub(crate) rest: &'a [u8],
}

/// What was read of a block's content, and the exclusive or of the bytes between the block's first `\` and the rest.
#[derive(Clone, Copy)]
pub(crate) struct Content<'a> {
    pub(crate) scan: Scan<'a>,
    pub(crate) sum: u8,
}

/// Keeps the value of a parameter, where its code says something here. It is always a call, so that one value is set where it lies and no other
/// moves.
#[inline(never)]
pub(crate) fn keep<'a>(values: &mut Values<'a>, code: &[u8], value: Value<'a>)
    ensures { spec.placed_values values.new ≡ spec.keep (spec.placed_values values.old) code.now (spec.placed value.entry) }
{
    match code {
        [b's'] => values.source = Some(value),
        [b'd'] => values.destination = Some(value),
        [b'g'] => values.group = Some(value),
        [b'n'] => values.count = Some(value),
        _ => {}
    }
}
