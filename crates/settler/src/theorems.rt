// What holds of every plan. Each function carries one theorem on its contract.
ghost use Rattle.std.specs.Prelude.{◌≡◌, Ok};
ghost use Rattle.sheets.specs.Spelled.{spelled};
ghost use Rattle.sheets.specs.Written.{written};
ghost use Rattle.settler.specs.Contents.{content};
ghost use Rattle.settler.specs.Sheets.{spelling};

use crate::plan::Plan;

// The bytes that save writes of a plan spell that plan: load takes them and leaves its cores, bus line and tasks.
pub fn a_saved_plan_loads_as_itself(plan: &Plan)
    ensures { spelled (written (spelling (content plan.now))) ≡ Ok (spelling (content plan.now)) }
{}
