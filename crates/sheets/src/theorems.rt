// A plan and its sheet say the same. Each function carries one theorem on its contract.
ghost use Rattle.sheets.specs.Theorems.{ALoadedSheetIsSavedAsTheSameBytes, ASavedPlanLoadsAsItself};

// Saving the plan that a sheet spells writes that sheet again, byte for byte.
pub fn a_loaded_sheet_is_saved_as_the_same_bytes()
    ensures { ALoadedSheetIsSavedAsTheSameBytes }
{}

// Loading what was saved of a plan gives that plan.
pub fn a_saved_plan_loads_as_itself()
    ensures { ASavedPlanLoadsAsItself }
{}
