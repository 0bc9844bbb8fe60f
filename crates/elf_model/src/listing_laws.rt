//! The laws of listings.
ghost use Rattle.elf_model.specs.ListingLaws.{LastRowIsLast, RowsSplit, HeaderAloneIsListed, HeaderFaultIsListedAlone, LoadFaultIsListedSecond, NothingAfterTheFault, ListingsAppend, OtherBitsMeanNothing, AmpleBudgetIsReport};

/// The last row of this many follows the others.
pub fn last_row_is_last()
    ensures { LastRowIsLast }
{}

/// This many rows are some of them, and the others after these.
pub fn rows_split()
    ensures { RowsSplit }
{}

/// With no part except the file header's the listing is the file header's.
pub fn header_alone_is_listed()
    ensures { HeaderAloneIsListed }
{}

/// If a check of the file header fails, that fault's line is the listing, under any parts.
pub fn header_fault_is_listed_alone()
    ensures { HeaderFaultIsListedAlone }
{}

/// If a load check fails, the file header's line and that fault's line are the listing.
pub fn load_fault_is_listed_second()
    ensures { LoadFaultIsListedSecond }
{}

/// What follows the first fault of a listing is not shown.
pub fn nothing_after_the_fault()
    ensures { NothingAfterTheFault }
{}

/// Two listings one after another, the first without a fault.
pub fn listings_append()
    ensures { ListingsAppend }
{}

/// Bits outside the seven parts mean nothing, for the listing and for its cost.
pub fn other_bits_mean_nothing()
    ensures { OtherBitsMeanNothing }
{}

/// Within a budget of at least its cost a listing is its report.
pub fn ample_budget_is_report()
    ensures { AmpleBudgetIsReport }
{}
