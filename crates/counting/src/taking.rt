// The rows that take part in scoring.
ghost use Rattle.std.specs.Prelude.{◌≡◌, length};

use store::view::StoreRef;

// The rows of a store that take part: those whose flag is set. Store and flags are lent apart, since a view of a store that is being
// changed ends before the flags do.
#[derive(Clone, Copy)]
pub struct Taking<'s, 'f> {
    pub store: StoreRef<'s>,
    pub flags: &'f [bool],
    ghost a_flag_each: { length flags.now ≡ store.layout.rows },
}
