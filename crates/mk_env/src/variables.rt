//! The variables of a makefile (`Env`): set, appended to, undefined, copied.
ghost use Rattle.std.specs.Prelude.{◌≡◌, ◌∷◌, OnOk, OnErr, ◌↔◌, IsTrue, option_map, is_some, IfOk};
ghost use Rattle.std.specs.Option.{option_copied};
ghost use Rattle.mk_env.specs.Texts.{defaulted, language_of, no_variables, text_in};
ghost use Rattle.mk_env.specs.Texts.{with_text, without_text, AppendsText};

use mk_text::Profile;
use std::alloc::{AllocError, Global};
use std::collections::BTreeMap;
use std::marker::Model;

/// The variables of a makefile: a map from each name that is defined to its text. The text is kept as it
/// was assigned, and expanded where it is used. The profile says in which language references are read.
#[derive(Drop)]
pub struct Env {
    alloc: Global,
    profile: Profile,
    variables: BTreeMap<String, String>,
}

impl Model for Env {
    ghost use Rattle.std.specs.Prelude.{List, ℕ};
    ghost use Rattle.std.specs.Coded.{coded_ℕ, coded_list, coded×};
    ghost use Rattle.mk_text.specs.Profiles.{profile_code};
    ghost use Rattle.std.specs.FinMap as finite;
    ghost use Rattle.mk_env.specs.Texts.{Variables, texts_of};

    ghost Value = { Variables };

    ghost coded = { coded× profile_code (finite.code (coded_list coded_ℕ) (coded_list coded_ℕ)) };

    ghost view = { λ e. (e.profile, texts_of e.variables.entries) };
}

impl Env {
    /// The variables of a makefile in this profile: none yet. It takes no memory.
    pub fn new(alloc: Global, profile: Profile) -> Env
        ensures { result ≡ no_variables profile }
    {
        Env {
            alloc,
            profile,
            variables: BTreeMap::new(alloc),
        }
    }

    /// Gives the variable of this name this text, whatever text it had. It fails only if memory runs out, and
    /// then nothing changes.
    pub fn set(&mut self, name: &str, text: &str) -> Result<(), AllocError>
        ensures ok { OnOk result (self.new ≡ with_text self.old name.now text.now) }
        ensures err { OnErr result (self.new ≡ self.old) }
    {
        let name = String::from_str(self.alloc, name)?;
        let text = String::from_str(self.alloc, text)?;
        self.variables.insert(name, text)?;
        Ok(())
    }

    /// Adds a space and this text to the end of the variable's text (`+=` of make(1)). If the variable isn't
    /// defined, it gets this text. That takes time in proportion to the added text (amortised), however long
    /// the variable's text is. It fails only if memory runs out, and then nothing changes.
    pub fn append(&mut self, name: &str, text: &str) -> Result<(), AllocError>
        ensures ok { AppendsText result self.old self.new name.now text.now }
        ensures err { OnErr result (self.new ≡ self.old) }
    {
        match self.variables.get_mut(name) {
            Some(before) => {
                // Room for both, so that the space isn't added alone if memory runs out.
                before.reserve(text.len() + 1)?;
                before.push(' ')?;
                before.push_str(text)
            }
            None => self.set(name, text),
        }
    }

    /// Gives the variable this text if it isn't defined, and otherwise changes nothing (`?=` of
    /// make(1)). It fails only if memory runs out, and then nothing changes.
    pub fn default(&mut self, name: &str, text: &str) -> Result<(), AllocError>
        ensures ok { OnOk result (self.new ≡ defaulted self.old name.now text.now) }
        ensures err { OnErr result (self.new ≡ self.old) }
    {
        if self.defined(name) {
            return Ok(());
        }
        self.set(name, text)
    }

    /// Removes the variable of this name, if it is defined (`.undef` of make(1)). It takes no memory.
    pub fn undef(&mut self, name: &str)
        ensures { self.new ≡ without_text self.old name.now }
    {
        self.variables.remove(name);
    }

    /// The profile in which references to these variables of a makefile are read.
    pub fn profile(&self) -> Profile
        ensures { result ≡ language_of self.now }
    {
        self.profile
    }

    /// A copy of these variables of a makefile. It fails only if memory runs out; these variables stay as
    /// they are.
    pub fn copy(&self) -> Result<Env, AllocError>
        ensures { IfOk result (λ env. env ≡ self.now) }
    {
        let variables = self.variables.clone()?;
        Ok(Env {
            alloc: self.alloc,
            profile: self.profile,
            variables,
        })
    }

    /// The text of the variable of this name as it was assigned; `None` if the variable isn't defined.
    pub fn get(&self, name: &str) -> Option<&str>
        ensures { option_copied result ≡ text_in self.now name.now }
    {
        match self.variables.get(name) {
            Some(text) => Some(text.as_str()),
            None => None,
        }
    }

    /// Whether the variable of this name is defined.
    pub fn defined(&self, name: &str) -> bool
        ensures { result ≡ is_some (text_in self.now name.now) }
    {
        self.variables.contains_key(name)
    }
}
