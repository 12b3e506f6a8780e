// Books worked by hand, from the rules themselves.
ghost use Rattle.award.specs.Books.{WorkedBooks};

// Each book comes out with its cut-off and its whole list of allotments, beside the four divisions.
pub fn books_come_out()
    ensures { WorkedBooks }
{}
