//! Laws of the path between two states of a chip; `debug_model` has the statements in `specs/Course.antt`.

ghost use Rattle.debug_model.specs.Course.{CoursesAreSitePaths, NoOperationIsDeeds, OneOperationBetweenDeeds};

/// Every path of a chip is a path of what stands behind its transport, with the operations that were performed.
pub fn courses_are_site_paths()
    ensures { CoursesAreSitePaths }
{}

/// A path without an operation is turns, micro steps and bus accesses alone.
pub fn no_operation_is_deeds()
    ensures { NoOperationIsDeeds }
{}

/// A path with one operation is that operation between turns, micro steps and bus accesses.
pub fn one_operation_between_deeds()
    ensures { OneOperationBetweenDeeds }
{}
