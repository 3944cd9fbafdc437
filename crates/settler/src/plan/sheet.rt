// A plan as a sheet of bytes, and what was settled as lines.
ghost use Rattle.std.specs.Prelude.{◌≡◌};
ghost use Rattle.tasks.specs.Refusals.{answer};
ghost use Rattle.sheets.specs.Spelled.{spelled};
ghost use Rattle.sheets.specs.Written.{written};
ghost use Rattle.writing.specs.Lent.{put_answer, fronted};
ghost use Rattle.settler.specs.Contents.{content};
ghost use Rattle.settler.specs.Sheets.{load_answer, load_verdict, loaded, spelling, print_answer, after_print};

use crate::plan::Plan;
use sheets::plan::Fault;
use sheets::plan::load::read_plan;
use tasks::refusal::Refusal;
use writing::lines::printed_text;
use writing::sheet::sheet_text;
use writing::text::put;

impl Plan {
    // Puts the content of a sheet in place of the plan's: cores, bus line and tasks. A fault is told with its layer and its place.
    pub fn load(&mut self, sheet: &[u8]) -> Result<(), Fault>
        ensures answer { load_answer result ≡ load_verdict (spelled sheet.now) }
        ensures content { content self.new ≡ loaded (spelled sheet.now) (content self.old) }
    {
        read_plan(sheet, &mut self.spare)?;
        std::mem::swap(&mut self.table, &mut self.spare);
        self.settled = false;
        Ok(())
    }

    // Writes the platform and the tasks, in plan order, into lent bytes, and answers how many there are: 5.
    pub fn save(&mut self, out: &mut [u8]) -> Result<usize, Refusal>
        ensures answer { answer result ≡ put_answer (written (spelling (content self.old))) out.old }
        ensures out { out.new ≡ fronted (written (spelling (content self.old))) out.old }
        ensures content { content self.new ≡ content self.old }
    {
        sheet_text(&mut self.text, self.table.platform(), self.table.rows());
        put(self.text.as_slice(), out)
    }

    // Writes a line for each task, in plan order, and one with the number of late tasks, into lent bytes; answers how many bytes: 13, 5.
    pub fn print(&mut self, out: &mut [u8]) -> Result<usize, Refusal>
        ensures answer { answer result ≡ print_answer (content self.old) out.old }
        ensures out { out.new ≡ after_print (content self.old) out.old }
        ensures content { content self.new ≡ content self.old }
    {
        if !self.settled {
            return Err(Refusal::Edited);
        }
        printed_text(&mut self.text, self.table.rows(), self.outcomes.as_slice());
        put(self.text.as_slice(), out)
    }
}
