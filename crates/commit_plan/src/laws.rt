//! Laws over the definitions: each function does nothing, and its contract is the law.
ghost use Rattle.commit_plan.specs.Planning.{PlansLead};
ghost use Rattle.commit_plan.specs.Filed.{FilingMakes};
ghost use Rattle.commit_plan.specs.Same.{SameIsEqual};

/// New extents off the live root and off one another, and then the body, lead from one content to the next.
pub fn plans_lead()
    ensures { PlansLead }
{}

/// Where the records of all layers and their catalog are put, the file holds what the root names.
pub fn filing_makes()
    ensures { FilingMakes }
{}

/// The tests of equality say of two contents, and of two tiles, whether they are equal.
pub fn same_is_equal()
    ensures { SameIsEqual }
{}
