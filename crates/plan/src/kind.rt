// The names of the kinds of rows.
ghost use Rattle.std.specs.Prelude.{◌≡◌};
ghost use Rattle.plan.specs.Rows.{kind_named};

/// The kinds of rows that have one fixed name: all but blank rows and command lines.
#[derive(Clone, Copy)]
pub(crate) enum Kind {
    Sheet,
    Strategy,
    Head,
    Calendar,
    Second,
    Seconds,
    Reset,
}

/// The kind of this name, if there is one.
pub(crate) fn kind_named(name: &[u8]) -> Option<Kind>
    ensures { result ≡ kind_named name.now }
{
    match name {
        b"sheet" => Some(Kind::Sheet),
        b"strategy" => Some(Kind::Strategy),
        b"head" => Some(Kind::Head),
        b"calendar" => Some(Kind::Calendar),
        b"second" => Some(Kind::Second),
        b"seconds" => Some(Kind::Seconds),
        b"reset" => Some(Kind::Reset),
        _ => None,
    }
}
