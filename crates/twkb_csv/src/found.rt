//! Which field of a header has the name of a column.
ghost use Rattle.std.specs.Prelude.{◌≡◌};
ghost use Rattle.twkb_csv.specs.Named.{found_next, is_at, one_more, unless_ids};

// Which field of the header has the name of the column.
#[derive(Clone, Copy)]
pub(crate) enum Found {
    // None so far.
    Absent,
    // The one at this place, counted from 0.
    At(usize),
    // More than one.
    Twice,
}

impl Found {
    // What is known after one more name at this place is that of the column.
    fn another(self, place: usize) -> Found
        ensures { result ≡ one_more self place }
    {
        match self {
            Found::Absent => Found::At(place),
            _ => Found::Twice,
        }
    }

    // What is known after the name at this place, if `wanted` is looked for.
    pub(crate) fn after_name(self, wanted: &[u8], name: &[u8], place: usize) -> Found
        ensures { result ≡ found_next wanted.now self place name.now }
    {
        if name == wanted {
            self.another(place)
        } else {
            self
        }
    }

    // The column at this place, unless this one, which is that of ids, is absent or there twice.
    pub(crate) fn or_place(self, place: usize) -> Found
        ensures { result ≡ unless_ids self place }
    {
        match self {
            Found::At(_) => Found::At(place),
            other => other,
        }
    }

    // Whether the column is the one at this place.
    #[inline(always)]
    pub(crate) fn is_at(self, place: usize) -> bool
        ensures { result ≡ is_at self place }
    {
        match self {
            Found::At(column) => column == place,
            _ => false,
        }
    }
}
