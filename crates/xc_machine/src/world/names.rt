ghost use Rattle.std.specs.Prelude.{◌≡◌, ◌≤◌, Some, None, IfOk, OnOk, OnErr};
ghost use Rattle.std.specs.FinMap as map;
ghost use Rattle.xc_world.specs.Act.Step.{step_to};
ghost use Rattle.xc_world.specs.Act.Names.{open_by_name, creates, renames, with_moved, next_num, with_new_file};

use super::World;
use super::file_body::FileBody;
use xc_data::{Name, NoMemory, Num, Place, Private, Reply};

impl World {
    pub(super) fn open(&self, me: &mut Private, name: Name) -> Reply
        ensures { open_by_name self.now me.old name ≡ step_to self.now me.new result }
    {
        let Some(num) = self.names.get(name) else {
            return Reply::NoName;
        };
        let Some(h) = me.vacant() else {
            return Reply::TooMuch;
        };
        me.set_place(h, Place::File { num: *num, at: 0 });
        Reply::Made(h)
    }

    // An empty file of a new number under a new name.
    fn add_file(&mut self, name: Name, num: Num) -> Result<(), NoMemory>
        requires { map.get self.old.files num ≡ None }
        ensures ok { OnOk result (self.new ≡ with_new_file self.old name num) }
        ensures err { OnErr result (self.new ≡ self.old) }
    {
        self.files.insert(num, FileBody::empty(self.alloc))?;
        if self.names.insert(name, num).is_err() {
            self.files.remove(num);
            return Err(NoMemory);
        }
        Ok(())
    }

    pub(super) fn create(
        &mut self,
        me: &mut Private,
        tx: u32,
        name: Name,
    ) -> Result<Reply, NoMemory>
        requires made { me.old.made ≤ 16 }
        requires new { map.get self.old.files (next_num me.old tx) ≡ None }
        ensures ok { IfOk result (λ reply. creates self.old me.old tx name ≡ step_to self.new me.new reply) }
        ensures world { OnErr result (self.new ≡ self.old) }
        ensures me { OnErr result (me.new ≡ me.old) }
    {
        if self.names.get(name).is_some() {
            return Ok(Reply::Exists);
        }
        let Some(h) = me.vacant() else {
            return Ok(Reply::TooMuch);
        };
        let num = Num { tx, k: me.made };
        self.add_file(name, num)?;
        me.set_place(h, Place::File { num, at: 0 });
        me.made += 1;
        Ok(Reply::Made(h))
    }

    // The file goes from one name to another. The new name comes first, since it may want memory.
    fn move_name(&mut self, from: Name, to: Name, num: Num) -> Result<(), NoMemory>
        requires there { map.get self.old.names from ≡ Some num }
        requires absent { map.get self.old.names to ≡ None }
        ensures ok { OnOk result (self.new ≡ with_moved self.old from to num) }
        ensures err { OnErr result (self.new ≡ self.old) }
    {
        self.names.insert(to, num)?;
        self.names.remove(from);
        Ok(())
    }

    pub(super) fn rename(&mut self, from: Name, to: Name) -> Result<Reply, NoMemory>
        ensures ok { (me : Private) → IfOk result (λ reply. renames self.old me from to ≡ step_to self.new me reply) }
        ensures world { OnErr result (self.new ≡ self.old) }
    {
        let Some(num) = self.names.get(from) else {
            return Ok(Reply::NoName);
        };
        if self.names.get(to).is_some() {
            return Ok(Reply::Exists);
        }
        let num = *num;
        self.move_name(from, to, num)?;
        Ok(Reply::Done)
    }
}
