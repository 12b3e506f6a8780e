// The check of a notice.
ghost use Rattle.std.specs.Prelude.{◌≡◌};
ghost use Rattle.terms.specs.Grounds.{first, refused};
ghost use Rattle.terms.specs.Notices.{series_byte, series_fits, numbers_fit, notice_fits, notice_grounds, noted, first_notice};

use crate::checked::CheckedNotice;
use crate::fault::NoticeFault;
use crate::notice::{Notice, NoticeFields};
use crate::quote::Quote;
use crate::sharing::{MOST_LOTS, SharingRule};

impl CheckedNotice {
    // The notice that a place for a checked notice starts with.
    pub fn first() -> CheckedNotice
        ensures { result.notice ≡ first_notice }
    {
        let notice = Notice {
            series: *b"SERIED03",
            offer: 100,
            minimum: 10,
            least_placement: 50,
            least_number: 2,
            opening: 30_600,
            closing: 46_800,
        };
        CheckedNotice { notice }
    }

    pub fn notice(&self) -> Notice
        ensures { result ≡ self.now.notice }
    {
        self.notice
    }
}

// Checks a notice for a kind of quote and a sharing rule. The place then holds it, without its codes; a refusal leaves the place as it was. (It
// is a rule of the project that the caller lends the place.)
pub fn check_notice<Q: Quote, R: SharingRule>(
    fields: &NoticeFields,
    place: &mut CheckedNotice,
) -> Result<(), NoticeFault>
    ensures refused { refused result ≡ first (notice_grounds Q.Quote.CODE R.SharingRule.CODE fields.now) }
    ensures place { place.new.notice ≡ noted (refused result) fields.now.notice place.old.notice }
{
    if fields.quote_code != Q::CODE || fields.sharing_code != R::CODE {
        return Err(NoticeFault::AgainstRules);
    }
    let notice = fields.notice;
    if !series_fits(&notice.series) || !numbers_fit(&notice) {
        return Err(NoticeFault::AgainstRules);
    }
    *place = CheckedNotice { notice };
    Ok(())
}

// Whether a byte is A to Z or 0 to 9.
fn series_byte(byte: u8) -> bool
    ensures { result ≡ series_byte byte }
{
    byte.is_ascii_uppercase() || byte.is_ascii_digit()
}

// Whether each byte of a series code is such a byte.
fn series_fits(series: &[u8]) -> bool
    ensures { result ≡ series_fits series.now }
{
    series.iter().all(|b| series_byte(*b))
}

// The last second of a day.
pub const LAST_SECOND: u32 = 86_399;

// Whether the lots, the number of bids and the seconds keep the rules.
fn numbers_fit(notice: &Notice) -> bool
    ensures { result ≡ numbers_fit notice.now }
{
    (1..=MOST_LOTS).contains(&notice.offer)
        && (1..=notice.offer).contains(&notice.minimum)
        && (1..=notice.offer).contains(&notice.least_placement)
        && (1..=2).contains(&notice.least_number)
        && notice.opening < notice.closing
        && notice.closing <= LAST_SECOND
}
