// Where a node stands in the bytes of tries.
ghost use Rattle.std.specs.Prelude.{◌≡◌, ◌+◌, ◌≤◌, ◌<◌};
ghost use Rattle.buffer.specs.Sizes.{word_limit};
ghost use Rattle.trie_read.specs.Sizes.{head_size};

use crate::kind::Kind;

// It begins at `at`; its value string stands in at + HEAD_SIZE..path, its path string in path..body, its body in body..next.
#[derive(Clone, Copy, Debug)]
pub struct NodePlace {
    pub at: usize,
    pub kind: Kind,
    pub path: usize,
    pub body: usize,
    pub next: usize,
    pub ghost path_behind: { at + head_size ≤ path },
    pub ghost body_behind: { path ≤ body },
    pub ghost next_behind: { body ≤ next },
    pub ghost value_short: { path < at + head_size + 256 },
    pub ghost path_short: { body < path + 256 },
}

impl NodePlace {
    // The same node where n bytes more stand before it.
    pub fn behind(&self, n: usize) -> NodePlace
        requires { n + self.now.next < word_limit }
        ensures { (result.at ≡ n + self.now.at) × (result.kind ≡ self.now.kind) × (result.path ≡ n + self.now.path) × (result.body ≡ n + self.now.body) × (result.next ≡ n + self.now.next) }
    {
        NodePlace {
            at: n + self.at,
            kind: self.kind,
            path: n + self.path,
            body: n + self.body,
            next: n + self.next,
        }
    }
}
