//! The groups that were declared last, which can be compared with other declarations too.
use crate::fault::Fault;
use crate::line::tell;
use crate::output::TestOutput;
use crate::setup::line::{Line, Lists, two_lists};
use crate::writing::{write_buffer, write_database, write_semaphore};
use ec_buffer::{BufferShape, declare_buffer};
use ec_count::{Setup, SetupFault};
use ec_database::{DatabaseShape, declare_database};
use ec_semaphore::{SemaphoreShape, declare_both, declare_semaphore};

/// The last group of each sort.
#[derive(Clone, Copy, Default)]
pub struct Shapes {
    buffer: Option<BufferShape>,
    database: Option<DatabaseShape>,
    semaphore: Option<SemaphoreShape>,
    both: Option<SemaphoreShape>,
}

impl Shapes {
    /// Declares a group of a sort.
    fn add(
        &mut self,
        setup: &mut Setup,
        sort: &str,
        number: usize,
        lists: &Lists,
    ) -> Result<(), SetupFault> {
        let (first, second) = (&lists.first, &lists.second);
        match sort {
            "buffer" => self.buffer = Some(declare_buffer(setup, number, first, second)?),
            "database" => self.database = Some(declare_database(setup, number, first, second)?),
            "semaphore" => {
                self.semaphore = Some(declare_semaphore(setup, number as u64, first)?);
            }
            _ => self.both = Some(declare_both(setup, first)?),
        }
        Ok(())
    }

    /// Declares a group, if the line does that.
    pub fn declare(&mut self, setup: &mut Setup, line: &mut Line<'_>) -> Result<bool, Fault> {
        let number = match line.verb {
            "buffer" | "database" | "semaphore" => line.size()?,
            "both" => 1,
            _ => return Ok(false),
        };
        let lists = two_lists(line)?;
        match self.add(setup, line.verb, number, &lists) {
            Ok(()) => tell("declared", line.out)?,
            Err(fault) => tell(fault, line.out)?,
        }
        Ok(true)
    }

    /// Returns whether the last group of a sort fits declarations.
    pub fn fits(&self, setup: &Setup, sort: &str) -> Result<bool, Fault> {
        Ok(match sort {
            "buffer" => self.buffer.ok_or(Fault::Line)?.fits(setup),
            "database" => self.database.ok_or(Fault::Line)?.fits(setup),
            "semaphore" => self.semaphore.ok_or(Fault::Line)?.fits(setup),
            _ => self.both.ok_or(Fault::Line)?.fits(setup),
        })
    }

    /// Writes the objects of the last group of a sort.
    pub fn write(&self, sort: &str, out: &mut TestOutput) -> Result<(), Fault> {
        match sort {
            "buffer" => write_buffer(&self.buffer.ok_or(Fault::Line)?, out),
            "database" => write_database(&self.database.ok_or(Fault::Line)?, out),
            "semaphore" => write_semaphore(&self.semaphore.ok_or(Fault::Line)?, out),
            _ => write_semaphore(&self.both.ok_or(Fault::Line)?, out),
        }
    }
}
