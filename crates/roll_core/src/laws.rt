//! What the layers below say, over their definitions alone.
ghost use Rattle.roll_core.specs.Below.{Below};

/// The laws of the layers below that the engine's promises rest on.
pub fn laws_below()
    ensures { Below }
{
    machine::laws::tables_stand();
    machine::laws::sites_stand();
    machine::laws::carried_columns_agree();
    mig_plan::laws::created_tables_are_numbered();
    row_rules::reach_laws::standing_rows_show_their_keys();
    row_store::laws::changes_keep_order();
    trigger_pair::laws::pairs_are_long();
    trigger_pair::laws::stored_rows_hold();
    trigger_pair::laws::begun_rows_hold();
    trigger_pair::laws::stored_rows_are_paired();
    trigger_pair::laws::paired_rows_are_long();
    phase_steps::laws::rows_fit_their_places();
    phase_steps::laws::left_rows_show_what_was_written();
    phase_steps::laws::completing_changes_no_view();
    phase_steps::laws::rows_are_stored_by_the_step();
    phase_steps::laws::returned_rows_show_what_was_written();
}
