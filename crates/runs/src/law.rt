// The law over every run of calls, whatever the kind of quote and the sharing rule.
ghost use Rattle.runs.specs.Law.{LawOverRuns};

use terms::quote::Quote;
use terms::sharing::SharingRule;

pub fn law_holds<Q: Quote, R: SharingRule>()
    ensures { LawOverRuns Q.Quote.read Q.Quote.no_worse R.SharingRule.meaning }
{}
