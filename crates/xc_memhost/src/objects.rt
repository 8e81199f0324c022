ghost use Rattle.std.specs.Prelude.{◌≡◌, ◌+◌, ◌≤◌, ◌<◌, true, false, length, take, drop, All, is_some, None};
ghost use Rattle.std.specs.Prelude.{IfOk, IfSome, OnOk, OnErr};
ghost use Rattle.std.specs.FinMap as map;
ghost use Rattle.xc_data.specs.Limits.{IsOpenedFit};
ghost use Rattle.xc_world.specs.Opening.{with_opened};
ghost use Rattle.xc_host.specs.Contents.{no_contents, opened, file_in, has_file, wrote, world_of, contents_of};
ghost use Rattle.xc_host.specs.Contents.{appended, shortened, created, uncreated, renamed, unnamed};
ghost use Rattle.xc_host.specs.Pipes.{pipe_in, has_pipe, with_new_pipe, taken_from, put_into, shut_in, without_pipe, pipe_state};
ghost use Rattle.xc_host.specs.Pairs.{IsMessage, IsReceivedOf, after_receipt, has_pair, pair_in, sent_from, side_state};
ghost use Rattle.xc_host.specs.Pairs.{with_new_pair, without_pair};
ghost use Rattle.xc_memhost.specs.Pairs.{IsSmall, received_of};
ghost use Rattle.xc_world.specs.World.{other_side, waiting};
ghost use Rattle.xc_data.specs.declared.object.Object.TheVariants as object;
ghost use Rattle.xc_world.specs.Sound.{is_there};

use crate::file_body::FileBody;
use crate::pair_body::PairBody;
use crate::pipe_body::PipeBody;
use std::alloc::Global;
use std::marker::Model;
use xc_data::{Chunk, Name, NoMemory, Num, Object, Opened};
use xc_host::{HostState, Took};
use xc_maps::{NameMap, NumMap};

/// The names, files, pipes and pairs.
#[derive(Drop)]
pub(crate) struct HostObjects {
    alloc: Global,
    names: NameMap<Num>,
    files: NumMap<FileBody>,
    pipes: NumMap<PipeBody>,
    pairs: NumMap<PairBody>,
}

impl Model for HostObjects {
    ghost use Rattle.xc_host.specs.Contents.{Contents};
    ghost use Rattle.xc_memhost.specs.State.{coded_contents};

    ghost Value = { Contents };

    ghost coded = { coded_contents };

    ghost view = { λ a. record { names = a.names; files = a.files; pipes = a.pipes; pairs = a.pairs } };
}

impl HostObjects {
    pub(crate) fn new(alloc: Global) -> HostObjects
        ensures { result ≡ no_contents }
    {
        HostObjects {
            alloc,
            names: NameMap::new(alloc),
            files: NumMap::new(alloc),
            pipes: NumMap::new(alloc),
            pairs: NumMap::new(alloc),
        }
    }

    fn open_line(&mut self, num: Num, opened: &Opened) -> Result<(), NoMemory>
        requires { IsOpenedFit opened.now }
        ensures { OnOk result (self.new ≡ contents_of (with_opened (world_of self.old) num opened.now)) }
    {
        match opened {
            Opened::File { name, bytes } => {
                let file = FileBody::of(self.alloc, bytes.as_slice())?;
                self.names.insert(*name, num)?;
                self.files.insert(num, file)
            }
            Opened::Pipe { bytes } => {
                let pipe = PipeBody::of(self.alloc, bytes.as_slice())?;
                self.pipes.insert(num, pipe)
            }
            Opened::Pair => self.pairs.insert(num, PairBody::empty(self.alloc)),
        }
    }

    // Exactly the objects of these lines.
    #[tactic(auto, using(crate::proofs::Bodies::opens_contents))]
    pub(crate) fn of(alloc: Global, objects: &[Opened]) -> Result<HostObjects, NoMemory>
        requires count { length objects.now ≤ 4096 }
        requires fit { All IsOpenedFit objects.now }
        ensures { IfOk result (λ made. made ≡ opened objects.now) }
    {
        let mut made = HostObjects::new(alloc);
        for (line, opened) in objects.iter().enumerate() {
            let num = Num {
                tx: 0,
                k: line as u16,
            };
            made.open_line(num, opened)?;
        }
        Ok(made)
    }

    pub(crate) fn find(&self, name: Name) -> Option<Num>
        ensures { result ≡ map.get self.now.names name }
    {
        self.names.get(name).copied()
    }

    pub(crate) fn bytes_of(&self, file: Num) -> Option<&[u8]>
        ensures there { is_some result ≡ has_file self.now file }
        ensures value { IfSome result (λ bytes. bytes.now ≡ file_in self.now file) }
    {
        match self.files.get(file) {
            Some(body) => Some(body.as_slice()),
            None => None,
        }
    }

    pub(crate) fn len(&self, file: Num) -> u32
        ensures { result ≡ length (file_in self.now file) }
    {
        match self.files.get(file) {
            Some(body) => body.len(),
            None => 0,
        }
    }

    // The n bytes from `at`, or as many as are there.
    pub(crate) fn front(&self, file: Num, at: u32, n: u32) -> &[u8]
        ensures { result.now ≡ take n (drop at (file_in self.now file)) }
    {
        match self.files.get(file) {
            Some(body) => body.front(at, n),
            None => &[],
        }
    }

    // In place, without memory.
    pub(crate) fn overwrite(&mut self, file: Num, at: u32, bytes: &[u8])
        requires there { has_file self.old file ≡ true }
        requires inside { at + length bytes.now ≤ length (file_in self.old file) }
        ensures { self.new ≡ wrote self.old file at bytes.now }
    {
        let Some(mut body) = self.files.replace(file, FileBody::empty(self.alloc)) else {
            return;
        };
        body.overwrite(at, bytes);
        self.files.replace(file, body);
    }

    // It changes nothing that is seen, and makes the next looks for names quick.
    pub(crate) fn settle(&mut self)
        ensures { self.new ≡ self.old }
    {
        self.names.settle();
    }

    pub(crate) fn create(&mut self, name: Name, num: Num) -> Result<(), NoMemory>
        requires absent { map.get self.old.names name ≡ None }
        requires new { has_file self.old num ≡ false }
        ensures ok { OnOk result (self.new ≡ created self.old name num) }
        ensures err { OnErr result (self.new ≡ self.old) }
    {
        self.files.insert(num, FileBody::empty(self.alloc))?;
        if self.names.insert(name, num).is_err() {
            self.files.remove(num);
            return Err(NoMemory);
        }
        Ok(())
    }

    pub(crate) fn append(&mut self, file: Num, bytes: &[u8]) -> Result<(), NoMemory>
        requires there { has_file self.old file ≡ true }
        requires fits { length (file_in self.old file) + length bytes.now ≤ 65536 }
        ensures ok { OnOk result (self.new ≡ appended self.old file bytes.now) }
        ensures err { OnErr result (self.new ≡ self.old) }
    {
        let Some(mut body) = self.files.replace(file, FileBody::empty(self.alloc)) else {
            return Err(NoMemory);
        };
        let done = body.append(bytes);
        self.files.replace(file, body);
        done
    }

    // In place, without memory.
    pub(crate) fn cut(&mut self, file: Num, len: u32)
        requires { has_file self.old file ≡ true }
        ensures { self.new ≡ shortened self.old file len }
    {
        let Some(mut body) = self.files.replace(file, FileBody::empty(self.alloc)) else {
            return;
        };
        body.cut(len);
        self.files.replace(file, body);
    }

    pub(crate) fn rename(&mut self, from: Name, to: Name)
        requires there { is_some (map.get self.old.names from) ≡ true }
        requires absent { map.get self.old.names to ≡ None }
        ensures { self.new ≡ renamed self.old from to }
    {
        self.names.rename(from, to);
    }

    // The file stays.
    pub(crate) fn unlink(&mut self, name: Name)
        ensures { self.new ≡ unnamed self.old name }
    {
        self.names.remove(name);
    }

    pub(crate) fn uncreate(&mut self, name: Name, num: Num)
        ensures { self.new ≡ uncreated self.old name num }
    {
        self.names.remove(name);
        self.files.remove(num);
    }

    pub(crate) fn new_pipe(&mut self, num: Num) -> Result<(), NoMemory>
        ensures ok { OnOk result (self.new ≡ with_new_pipe self.old num) }
        ensures err { OnErr result (self.new ≡ self.old) }
    {
        self.pipes.insert(num, PipeBody::empty(self.alloc))
    }

    // How many bytes a pipe holds and whether it is shut, if there is one.
    pub(crate) fn pipe_of(&self, pipe: Num) -> Option<HostState>
        ensures there { is_some result ≡ has_pipe self.now pipe }
        ensures value { IfSome result (λ state. state ≡ pipe_state (pipe_in self.now pipe)) }
    {
        match self.pipes.get(pipe) {
            Some(body) => Some(body.state()),
            None => None,
        }
    }

    pub(crate) fn pipe_state(&self, pipe: Num) -> HostState
        ensures { result ≡ pipe_state (pipe_in self.now pipe) }
    {
        match self.pipes.get(pipe) {
            Some(body) => body.state(),
            None => HostState {
                held: 0,
                shut: false,
            },
        }
    }

    // The first n bytes leave a pipe, or all where those are fewer.
    pub(crate) fn take(&mut self, pipe: Num, n: u32) -> Result<Chunk, NoMemory>
        requires there { has_pipe self.old pipe ≡ true }
        ensures front { IfOk result (λ front. front ≡ take n (pipe_in self.old pipe).held) }
        ensures rest { IfOk result (λ front. self.new ≡ taken_from self.old pipe (length front)) }
        ensures err { OnErr result (self.new ≡ self.old) }
    {
        let Some(mut body) = self.pipes.replace(pipe, PipeBody::empty(self.alloc)) else {
            return Err(NoMemory);
        };
        let front = body.take(n);
        self.pipes.replace(pipe, body);
        front
    }

    pub(crate) fn put(&mut self, pipe: Num, bytes: &[u8]) -> Result<(), NoMemory>
        requires there { has_pipe self.old pipe ≡ true }
        requires fits { length (pipe_in self.old pipe).held + length bytes.now ≤ 4096 }
        ensures ok { OnOk result (self.new ≡ put_into self.old pipe bytes.now) }
        ensures err { OnErr result (self.new ≡ self.old) }
    {
        let Some(mut body) = self.pipes.replace(pipe, PipeBody::empty(self.alloc)) else {
            return Err(NoMemory);
        };
        let done = body.put(bytes);
        self.pipes.replace(pipe, body);
        done
    }

    pub(crate) fn new_pair(&mut self, num: Num) -> Result<(), NoMemory>
        ensures ok { OnOk result (self.new ≡ with_new_pair self.old num) }
        ensures err { OnErr result (self.new ≡ self.old) }
    {
        self.pairs.insert(num, PairBody::empty(self.alloc))
    }

    pub(crate) fn pair_state(&self, pair: Num, side: u8) -> HostState
        ensures { result ≡ side_state (pair_in self.now pair) side }
    {
        match self.pairs.get(pair) {
            Some(body) => body.state(side),
            None => HostState {
                held: 0,
                shut: false,
            },
        }
    }

    // The first message that waits for a side leaves the pair. It takes no memory.
    pub(crate) fn recv(&mut self, pair: Num, side: u8) -> Took
        requires there { has_pair self.old pair ≡ true }
        ensures bound { IsMessage result }
        ensures value { IsReceivedOf (pair_in self.old pair) side result }
        ensures first { result ≡ received_of (pair_in self.old pair) side }
        ensures rest { self.new ≡ after_receipt pair side result self.old }
    {
        let Some(mut body) = self.pairs.replace(pair, PairBody::empty(self.alloc)) else {
            return Took::Empty;
        };
        let took = body.take(side);
        self.pairs.replace(pair, body);
        took
    }

    // Puts a message of a side after those that wait for the other side.
    pub(crate) fn send(&mut self, pair: Num, side: u8, message: Chunk) -> Result<(), NoMemory>
        requires there { has_pair self.old pair ≡ true }
        requires fits { length (waiting (pair_in self.old pair) (other_side side)) < 8 }
        requires small { IsSmall message }
        ensures ok { OnOk result (self.new ≡ sent_from self.old pair side message) }
        ensures err { OnErr result (self.new ≡ self.old) }
    {
        let Some(mut body) = self.pairs.replace(pair, PairBody::empty(self.alloc)) else {
            return Err(NoMemory);
        };
        let done = body.send(side, message);
        self.pairs.replace(pair, body);
        done
    }

    fn shut_pipe(&mut self, num: Num)
        requires { has_pipe self.old num ≡ true }
        ensures { self.new ≡ shut_in self.old (object.Pipe num) }
    {
        let Some(mut body) = self.pipes.replace(num, PipeBody::empty(self.alloc)) else {
            return;
        };
        body.shut();
        self.pipes.replace(num, body);
    }

    fn shut_pair(&mut self, num: Num)
        requires { is_some (map.get self.old.pairs num) ≡ true }
        ensures { self.new ≡ shut_in self.old (object.Pair num) }
    {
        let Some(mut body) = self.pairs.replace(num, PairBody::empty(self.alloc)) else {
            return;
        };
        body.shut();
        self.pairs.replace(num, body);
    }

    // In place, without memory.
    pub(crate) fn shut(&mut self, object: &Object)
        requires { is_there (world_of self.old) object.now ≡ true }
        ensures { self.new ≡ shut_in self.old object.now }
    {
        match object {
            Object::Pipe(num) => self.shut_pipe(*num),
            Object::Pair(num) => self.shut_pair(*num),
            Object::Word(_) | Object::Name(_) | Object::File(_) | Object::Jobs => {}
        }
    }

    pub(crate) fn drop_pipe(&mut self, num: Num)
        ensures { self.new ≡ without_pipe self.old num }
    {
        self.pipes.remove(num);
    }

    pub(crate) fn drop_pair(&mut self, num: Num)
        ensures { self.new ≡ without_pair self.old num }
    {
        self.pairs.remove(num);
    }
}
