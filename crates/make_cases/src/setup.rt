//! The setup of cases: what lines without `=>` set up, and the calls of cases of makefiles over it.
use crate::truth::truth_answer;
use crate::world::World;
use crate::{evaluation, faults, files, loops, variables};
use case_lines::{Answer, Trouble, as_number, as_text};
use mk_env::Env;
use mk_files::Content;
use mk_text::Profile;
use std::alloc::{AllocError, Global};

/// The setup of cases of makefiles: what lines without `=>` set up for the lines after them.
#[derive(Drop)]
pub struct Setup {
    alloc: Global,
    variables: Env,
    /// A copy of the variables, as they were when it was made.
    copy: Env,
    pub world: World,
}

impl Setup {
    /// A setup of cases with no variable and no file, in the first profile.
    pub fn new(alloc: Global) -> Result<Setup, AllocError> {
        Ok(Setup {
            alloc,
            variables: Env::new(alloc, Profile::One),
            copy: Env::new(alloc, Profile::One),
            world: World::new(alloc, Profile::One)?,
        })
    }

    /// Sets up what a line of a case without `=>` says. The error is `NoCase` if the line is in no form of a
    /// case, and `Memory` if memory runs out.
    pub fn set_up(&mut self, call: &str, given: &[Vec<u8>]) -> Result<(), Trouble> {
        match call {
            "profile" => self.set_profile(given)?,
            "no variables" => self.variables = Env::new(self.alloc, self.world.settings.profile),
            "copy" => self.copy = self.variables.copy()?,
            "no files" => self.world = World::new(self.alloc, self.world.settings.profile)?,
            "put" => files::put(self.alloc, &mut self.world.files, given)?,
            "makefile" => self.put_makefile(given)?,
            _ => self.change_variables(call, given)?,
        }
        Ok(())
    }

    /// The line `profile N` in the setup of a case: from now on the files are read in this profile, and there
    /// is no variable.
    fn set_profile(&mut self, given: &[Vec<u8>]) -> Result<(), Trouble> {
        let [number] = given else {
            return Err(Trouble::NoCase);
        };
        let profile = given_profile(number)?;
        self.world.settings.profile = profile;
        self.variables = Env::new(self.alloc, profile);
        Ok(())
    }

    /// The line `makefile BYTES` in the setup of a case: stores the makefile that cases of evaluation are
    /// about.
    fn put_makefile(&mut self, given: &[Vec<u8>]) -> Result<(), Trouble> {
        let [bytes] = given else {
            return Err(Trouble::NoCase);
        };
        let name = evaluation::makefile(self.alloc)?;
        let content = Content::new(self.alloc, bytes.clone()?)?;
        self.world.files.put(name, content)?;
        Ok(())
    }

    /// The lines `set NAME TEXT`, `append NAME TEXT`, `default NAME TEXT`, `undef NAME` in the setup of a
    /// case: each changes a variable.
    fn change_variables(&mut self, call: &str, given: &[Vec<u8>]) -> Result<(), Trouble> {
        match given {
            [name, text] => self.change_variable(call, as_text(name)?, as_text(text)?),
            [name] if call == "undef" => {
                self.variables.undef(as_text(name)?);
                Ok(())
            }
            _ => Err(Trouble::NoCase),
        }
    }

    /// Changes a variable in the setup of a case by a text: sets it, appends to it, or gives it a default.
    fn change_variable(&mut self, call: &str, name: &str, text: &str) -> Result<(), Trouble> {
        match call {
            "set" => self.variables.set(name, text)?,
            "append" => self.variables.append(name, text)?,
            "default" => self.variables.default(name, text)?,
            _ => return Err(Trouble::NoCase),
        }
        Ok(())
    }

    /// What the call of a case's line gives over the setup. The error is `NoCase` if the line is in no form
    /// of a case, and `Memory` if memory runs out.
    pub fn answer(&mut self, call: &str, given: &[Vec<u8>]) -> Result<Answer, Trouble> {
        let alloc = self.alloc;
        let variables = &self.variables;
        match call {
            "numbers of kinds" => Ok(faults::numbers_of_kinds(alloc)),
            "budget pays asks" => faults::budget(alloc, given),
            "blame" => faults::blamed(alloc, given),
            "expand" | "expand within" | "expand now" | "variable" | "inside" | "inside within" => {
                variables::expansion(alloc, variables, call, given)
            }
            "modify on" | "modify on within" => variables::modified(alloc, variables, given),
            "truth" | "truth within after" => {
                truth_answer(alloc, variables, &mut self.world.files, given)
            }
            "iterations of on" | "iterations of on within" => loops::iterations_of(
                alloc, variables, given,
            ),
            "put words into" | "put words into of" => {
                loops::put_words_answer(alloc, variables, false, given)
            }
            "put words within into of" => loops::put_words_answer(alloc, variables, true, given),
            "get" => variables::text_of_variable(alloc, variables, given),
            "get from copy" => variables::text_of_variable(alloc, &self.copy, given),
            _ => self.answer_of_files(call, given),
        }
    }

    /// What the call of a case's line gives over the setup, if it is a call of files, of evaluation or of
    /// texts.
    fn answer_of_files(&mut self, call: &str, given: &[Vec<u8>]) -> Result<Answer, Trouble> {
        let alloc = self.alloc;
        let files = &mut self.world.files;
        match call {
            "ask has after" => files::ask_has_answer(alloc, files, given),
            "ask read after" => files::ask_read_answer(alloc, files, given),
            "name" | "name under" => files::name_of(alloc, given),
            "directory of" => files::directory_of(alloc, given),
            "search path" => files::trees_of(alloc, given),
            "standard search path" => files::standard_trees(alloc),
            "remove" => files::remove(alloc, files, given),
            "read" => files::read(alloc, files, given),
            "place of on" => files::place(alloc, files, given),
            "names" => files::names(alloc, files),
            _ => self.answer_of_makefile(call, given),
        }
    }

    /// What the call of a case's line gives over the setup, if it is a call of evaluation or of texts.
    fn answer_of_makefile(&mut self, call: &str, given: &[Vec<u8>]) -> Result<Answer, Trouble> {
        let alloc = self.alloc;
        let world = &mut self.world;
        match call {
            "cost" | "evaluate" | "stored" | "flavored" | "value" => {
                evaluation::answer_each_way(alloc, world, call, given)
            }
            "turns" => evaluation::turns(alloc, world, given),
            "cost failing" => evaluation::cost_failing(alloc, world),
            _ => text_cases::answer(alloc, call, given),
        }
    }
}

/// The profile that a line of a case's setup gives by its number.
fn given_profile(number: &[u8]) -> Result<Profile, Trouble> {
    match as_number(number)? {
        1 => Ok(Profile::One),
        2 => Ok(Profile::Two),
        _ => Err(Trouble::NoCase),
    }
}
