//! The laws of plans. Each is the contract of a function that does nothing.

ghost use Rattle.mig_plan.specs.Laws.{PlanningWantsNothing, PlannedFatesStand, PlannedLensesJoin, TablesHaveFates, PlannedFatesDiffer, CreatedTablesAreNumbered, PlansStayBelow, PlannedNumbersFit, AddedColumnsLoseNothing, PlansKeepSchemas};

/// Each table that a plan keeps has a shape in both versions, and its lens fits the two shapes and is well formed over
/// them, for every migration, whichever its operations are, and every schema whose tables have different names, different
/// numbers below that of the next table, and well-formed shapes. Where each operation is `add_column` every old column
/// is carried.
pub fn planned_lenses_join()
    ensures join { PlannedLensesJoin }
    ensures carry { AddedColumnsLoseNothing }
{}

/// The tables of a plan's new version have different names, different numbers and well-formed shapes, for every
/// migration, and every schema of which that holds and whose numbers are below that of the next table.
pub fn planned_schemas_are_well_formed()
    ensures { PlansKeepSchemas }
{}

/// Each fate of a plan is about the tables of its number: both versions have the table, joined by the lens, or it is one
/// of the new version alone, or one of the old version alone. Each table of either version has a fate, and one only. It
/// holds for every migration, and every schema as above.
pub fn planned_tables_have_fates()
    ensures stand { PlannedFatesStand }
    ensures all { TablesHaveFates }
    ensures differ { PlannedFatesDiffer }
{}

/// The tables that a plan creates have the numbers from that of the next table on, in the order of their creation, and
/// the next number after these is above those of the new version's tables. It holds for every migration, and every
/// schema as above. That this number is one of 32 bits where the one before was holds for any schema.
pub fn created_tables_are_numbered()
    ensures numbers { CreatedTablesAreNumbered }
    ensures below { PlansStayBelow }
    ensures fit { PlannedNumbersFit }
{}

/// What a migration makes of a schema is a plan or a fault of the migration, and never want of memory: only a call may
/// answer that.
///
/// It holds for every schema, number and migration.
pub fn planning_wants_nothing()
    ensures { PlanningWantsNothing }
{}
