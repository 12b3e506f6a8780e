// A fault with the ordinal and the byte place of what it is about, on its way to the session's fault. (The session's fault is a type of its own and
// not a `Located`: the `From` below would overlap with that of a type from itself. Ordinal and place stay two numbers, here and where the reader is
// asked for them: as a struct they would be taken apart again for each fault that shows both.)
ghost use Rattle.std.specs.Prelude.{◌≡◌};
ghost use Rattle.cabinet.specs.Faults.{located};

use crate::fault::{LowerFault, SessionFault};

#[derive(Clone, Copy)]
pub struct Located<F> {
    pub ordinal: usize,
    pub place: usize,
    pub fault: F,
}

// The answer, its fault with an ordinal and a place.
pub(crate) fn locate<T, F>(
    ordinal: usize,
    place: usize,
    answer: Result<T, F>,
) -> Result<T, Located<F>>
    ensures { result ≡ located ordinal place answer }
{
    answer.map_err(|fault| Located {
        ordinal,
        place,
        fault,
    })
}

// The fault of any lower layer.
impl<F: Into<LowerFault>> From<Located<F>> for SessionFault {
    ghost from_gives = { λ l r. (r.ordinal ≡ l.ordinal) × (r.place ≡ l.place) × F.converts l.fault r.fault };

    fn from(located: Located<F>) -> SessionFault {
        SessionFault {
            ordinal: located.ordinal,
            place: located.place,
            fault: located.fault.into(),
        }
    }
}
