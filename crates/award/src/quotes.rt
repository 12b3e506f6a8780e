// Two quotes compared. (By `no_worse`, also where they are the same, and not by a derived equality: the award's rules speak of that order alone.)
ghost use Rattle.std.specs.Prelude.{◌≡◌};
ghost use Rattle.award.specs.Award.{better, same};

use terms::quote::Quote;

// Whether a quote is better than another.
pub(crate) fn better<Q: Quote>(quote: Q, other: Q) -> bool
    ensures { result ≡ better Q.Quote.no_worse quote other }
{
    quote.no_worse(other) && !other.no_worse(quote)
}

// Whether two quotes are the same.
pub(crate) fn same<Q: Quote>(quote: Q, other: Q) -> bool
    ensures { result ≡ same Q.Quote.no_worse quote other }
{
    quote.no_worse(other) && other.no_worse(quote)
}
