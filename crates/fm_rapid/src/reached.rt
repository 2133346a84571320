// Which methods are reached, and of which classes objects are made.

ghost use Rattle.std.specs.Prelude.{◌≡◌, ◌<◌, ℕ, true, IfOk, OnOk, length};
ghost use Rattle.fm_base.specs.Rows.{has};
ghost use Rattle.fm_rapid.specs.inner.Followed.{CanBeFollowed};
ghost use Rattle.fm_rapid.specs.Opening.{HasOpening};
ghost use Rattle.fm_rapid.specs.Reach.{Reach};
ghost use Rattle.fm_summ_shapes.specs.Analysed.{AreAnalysable};
ghost use Rattle.fm_world.specs.BuiltIns.{built_in};
ghost use Rattle.fm_rapid.specs.inner.Walks.{sets_of, Goes, IsAtEnd, IsUnderWay, IsWalk};

use crate::walk::Walk;
use fm_base::{ClassId, MethodId, NoMemory, Row};
use fm_world::{Program, built_in_classes};
use std::alloc::Global;

/// The methods that a program can come to run, one bit for each, and the classes of which it can come to
/// make objects.
#[derive(Debug, Drop)]
pub struct Reached {
    pub methods: Row,
    pub made: Row,
}

impl Reached {
    /// Whether a method is reached. Takes no memory.
    pub fn is_in(&self, m: MethodId) -> bool
        requires { m.0 < length self.now.methods }
        ensures { result ≡ has self.now.methods m.0 }
    {
        self.methods.get(m.0)
    }

    /// Whether objects of a class are made. Takes no memory.
    pub fn is_made(&self, c: ClassId) -> bool
        requires { c.0 < length self.now.made }
        ensures { result ≡ has self.now.made c.0 }
    {
        self.made.get(c.0)
    }

    /// The classes that are made, one bit for each class. Takes no memory.
    pub fn into_made(self) -> Row
        ensures { result ≡ self.made }
    {
        self.made
    }
}

/// What a program reaches from its main method on: the least sets of methods and classes that hold what
/// their methods lead to. Takes a few words for each method and class, one for each class above a class
/// that is made, and the flow of one code at a time.
pub fn reach(alloc: Global, program: &Program) -> Result<Reached, NoMemory>
    requires analysable { AreAnalysable program.now }
    requires opening { HasOpening program.now.outline }
    ensures { IfOk result (λ reached. Reach program.now reached.methods reached.made) }
{
    let mut walk = opened(alloc, program)?;
    walk.follow_all(alloc, program)?;
    let Walk { methods, made, .. } = walk;
    Ok(Reached { methods, made })
}

// A walk with all that a program reaches whatever its methods do.
fn opened(alloc: Global, program: &Program) -> Result<Walk, NoMemory>
    requires { CanBeFollowed program.now }
    ensures { IfOk result (λ walk. IsUnderWay program.now (sets_of walk)) }
{
    let mut walk = Walk::new(alloc, program)?;
    walk.make_built_ins(alloc, program)?;
    let main = program.main();
    walk.enter(program, main)?;
    let main_class = program.main_class();
    walk.start(alloc, program, main_class)?;
    Ok(walk)
}

impl Walk {
    // Makes all built-in classes.
    fn make_built_ins(&mut self, alloc: Global, program: &Program) -> Result<(), NoMemory>
        requires program { CanBeFollowed program.now }
        requires walk { IsWalk program.now (sets_of self.old) }
        ensures goes { OnOk result (Goes program.now (sets_of self.old) (sets_of self.new)) }
        ensures made { OnOk result ((class : ℕ) → class < length built_in
            → has self.new.made class ≡ true) }
    {
        let count = built_in_classes().len() as u32;
        for class in 0..count {
            self.make(alloc, program, ClassId(class))?;
        }
        Ok(())
    }

    // Goes over the methods that wait, until none does.
    fn follow_all(&mut self, alloc: Global, program: &Program) -> Result<(), NoMemory>
        requires program { CanBeFollowed program.now }
        requires walk { IsUnderWay program.now (sets_of self.old) }
        ensures { OnOk result (IsAtEnd program.now (sets_of self.new)) }
    {
        while let Some(method) = self.waiting.pop() {
            self.follow(alloc, program, MethodId(method))?;
        }
        Ok(())
    }
}
