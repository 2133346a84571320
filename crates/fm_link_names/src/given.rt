// A given class file with the numbers of its texts.

ghost use Rattle.std.specs.Prelude.{◌≡◌, IfOk};
ghost use Rattle.fm_link_names.specs.inner.Files.{
  class_text_in,
  member_in,
  member_named_in,
  named_class_in,
  text_in,
  AreFiles,
};
ghost use Rattle.fm_link_names.specs.inner.Numbering.{texts_in, AreTexts, Extends};
ghost use Rattle.fm_world.specs.Causes.{own_name};

use crate::names::own_name;
use crate::places::number_of;
use crate::texts::Texts;
use fm_base::NoMemory;
use fm_code::{ClassDef, Entry};
use std::alloc::Global;

/// A class file, its number among those given, and the numbers of its pool's texts by index.
#[derive(Drop)]
pub struct GivenFile<'a> {
    pub class: &'a ClassDef,
    pub number: u32,
    pub texts: Vec<Option<u32>>,
}

/// A member that an entry names, by the numbers of the texts that name it.
#[derive(Clone, Copy, Debug)]
pub struct MemberTexts {
    pub class: u32,
    pub name: u32,
    pub descriptor: u32,
}

impl<'a> GivenFile<'a> {
    /// The number of the text at an index.
    pub fn text(&self, index: u16) -> Option<u32>
        ensures { result ≡ text_in self.now index }
    {
        match self.texts.get(usize::from(index)) {
            Some(number) => *number,
            None => None,
        }
    }

    /// The number of the name of the class at an index.
    pub fn class_text(&self, index: u16) -> Option<u32>
        ensures { result ≡ class_text_in self.now index }
    {
        match self.class.pool.entry(index) {
            Some(Entry::Class(name)) => self.text(*name),
            _ => None,
        }
    }

    /// The member at an index, of a class or of an interface.
    pub fn member(&self, index: u16) -> Option<MemberTexts>
        ensures { result ≡ member_in self.now index }
    {
        match self.class.pool.entry(index) {
            Some(Entry::Field(class, member)) => self.member_named(*class, *member),
            Some(Entry::Method(class, member)) => self.member_named(*class, *member),
            Some(Entry::InterfaceMethod(class, member)) => self.member_named(*class, *member),
            _ => None,
        }
    }

    // The member that the index of a class and that of a name with its descriptor name.
    fn member_named(&self, class: u16, member: u16) -> Option<MemberTexts>
        ensures { result ≡ member_named_in self.now class member }
    {
        let class = self.class_text(class)?;
        let Some(Entry::NameAndType(name, descriptor)) = self.class.pool.entry(member) else {
            return None;
        };
        Some(MemberTexts {
            class,
            name: self.text(*name)?,
            descriptor: self.text(*descriptor)?,
        })
    }

    /// The number of the name of the class or the array that an index names, by itself or as the
    /// class of a member.
    pub fn named_class(&self, index: u16) -> Option<u32>
        ensures { result ≡ named_class_in self.now index }
    {
        match self.class.pool.entry(index) {
            Some(Entry::Class(name)) => self.text(*name),
            _ => Some(self.member(index)?.class),
        }
    }

    /// The class's own name.
    pub fn name(&self) -> &'a [u8]
        ensures { result.now ≡ own_name self.now.class.now }
    {
        own_name(self.class)
    }
}

/// The files with the numbers of their texts. `NoMemory` where memory runs out.
pub fn given_files<'a>(
    alloc: Global,
    texts: &mut Texts<'a>,
    given: &'a [ClassDef],
) -> Result<Vec<GivenFile<'a>>, NoMemory>
    requires { AreTexts texts.old }
    ensures are { AreTexts texts.new }
    ensures extends { Extends (texts_in texts.old) (texts_in texts.new) }
    ensures files { IfOk result (λ files. AreFiles (texts_in texts.new) given.entry.now files.items) }
{
    let mut files = Vec::new(alloc);
    for class in given {
        let numbers = texts.add_pool(alloc, class.pool.entries.as_slice())?;
        files.push(GivenFile {
            class,
            number: number_of(files.len())?,
            texts: numbers,
        })?;
    }
    Ok(files)
}
