// The award cannot be bettered, whatever the kind of quote and the sharing rule.
ghost use Rattle.award.specs.Rivals.{CannotBeBettered};

use terms::quote::Quote;
use terms::sharing::SharingRule;

// The act is void exactly on its grounds. Otherwise the award is a rival, places at each quote or better at least what any rival does,
// adds up to the lesser of offer and demand, and has one cut-off.
pub fn award_cannot_be_bettered<Q: Quote, R: SharingRule>()
    ensures { CannotBeBettered Q.Quote.no_worse R.SharingRule.meaning }
{}
