ghost use Rattle.std.specs.Prelude.{◌≡◌};
ghost use Rattle.xc_text.specs.Kinds.{kind_in, kind as kind_of_token};
ghost use Rattle.xc_tokens.specs.Views.{lexeme};

use xc_data::HostCallKind;
use xc_tokens::{Token, Why, by_word};

/// The kinds of host calls as a `fault` line spells them.
const KINDS: [(&[u8], HostCallKind); 25] = [
    (b"lookup", HostCallKind::Lookup),
    (b"create", HostCallKind::Create),
    (b"len", HostCallKind::Len),
    (b"read_at", HostCallKind::ReadAt),
    (b"write_at", HostCallKind::WriteAt),
    (b"append", HostCallKind::Append),
    (b"rename", HostCallKind::Rename),
    (b"unlink", HostCallKind::Unlink),
    (b"sync", HostCallKind::Sync),
    (b"new_pipe", HostCallKind::NewPipe),
    (b"pipe_state", HostCallKind::PipeState),
    (b"take", HostCallKind::Take),
    (b"put", HostCallKind::Put),
    (b"new_pair", HostCallKind::NewPair),
    (b"pair_state", HostCallKind::PairState),
    (b"recv", HostCallKind::Recv),
    (b"send", HostCallKind::Send),
    (b"shut", HostCallKind::Shut),
    (b"restore", HostCallKind::Restore),
    (b"cut", HostCallKind::Cut),
    (b"uncreate", HostCallKind::Uncreate),
    (b"name_back", HostCallKind::NameBack),
    (b"drop_pipe", HostCallKind::DropPipe),
    (b"drop_pair", HostCallKind::DropPair),
    (b"any", HostCallKind::Any),
];

#[tactic(auto, unfolding(crate::specs::Kinds::spellings))]
fn kind_word(word: &[u8]) -> Result<HostCallKind, Why>
    ensures { result ≡ kind_in word.now }
{
    match by_word(&KINDS, word) {
        Some(kind) => Ok(kind),
        None => Err(Why::BadForm),
    }
}

/// What is read where a kind of host calls is due.
pub fn kind(token: &Token) -> Result<HostCallKind, Why>
    ensures { result ≡ kind_of_token (lexeme token.now) }
{
    match token {
        Token::Word(word) => kind_word(word),
        Token::Plain { .. } | Token::Escaped { .. } => Err(Why::BadForm),
    }
}
