//! What holds of the order of versions and of the texts of packages' names. Each function does nothing: its
//! clause is the law.
ghost use Rattle.pkg_name.specs.Laws.{AnyTwoCompare, NeverBothLower, LowerThanLower, EqualAsTexts, OtherWayRound, NameIsItsText};

/// Of any two versions of packages, the first is lower, or the second is, or they are the same text.
pub fn any_two_compare()
    ensures { AnyTwoCompare }
{}

/// If a version of a package is lower than another, the other isn't lower than it. So no version is lower
/// than itself.
pub fn never_both_lower()
    ensures { NeverBothLower }
{}

/// If a version of a package is lower than a second one, and that is lower than a third, the first is lower
/// than the third.
pub fn lower_than_lower()
    ensures { LowerThanLower }
{}

/// Two versions of packages are equal exactly if their texts are the same.
pub fn equal_as_texts()
    ensures { EqualAsTexts }
{}

/// Comparing two versions of packages the other way round gives the opposite result.
pub fn other_way_round()
    ensures { OtherWayRound }
{}

/// The text of a package's name that was split is the text that was split.
pub fn name_is_its_text()
    ensures { NameIsItsText }
{}
