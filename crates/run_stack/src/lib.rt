// The working stack of an image's code, by value: each method hands the next stack back. It is never short and never over 32.
#![tactic(auto)]

ghost use Rattle.std.specs.Prelude.{true, ◌≡◌, [], ◌∷◌, ◌+◌, ◌<◌, ◌≤◌, pos, get_or};
ghost use Rattle.model.specs.Rules.Cover.{area_ok};
ghost use Rattle.model.specs.Rules.Machine.{on_one, on_two, on_three};
ghost use Rattle.model.specs.Rules.Table.{table_word, area_rows};
ghost use Rattle.model.specs.Rules.Word.{binary_word, neg_word, if_word};
ghost use Rattle.run_stack.specs.View.{view, words_below};

use model::Binary;

// How many words are near.
pub const NEAR: usize = 8;

// The top word apart, the words under it in two arrays, the near ones first; word 0 is not used. A push copies the array that it
// writes to, and few stacks reach the far one.
#[derive(Clone, Copy)]
pub struct Stack {
    pub top: i32,
    pub near: [i32; 8],
    pub far: [i32; 24],
    pub height: usize,
}

// The word taken off, and the stack without it.
#[derive(Clone, Copy)]
pub struct Popped {
    pub word: i32,
    pub rest: Stack,
}

impl Stack {
    pub fn new() -> Self
        ensures { (view result ≡ []) × (result.height ≡ 0) }
    {
        Self {
            top: 0,
            near: [0; 8],
            far: [0; 24],
            height: 0,
        }
    }

    // Word `at` of those under the top.
    fn word_below(self, at: usize) -> i32
        requires { at < 32 }
        ensures { result ≡ get_or (words_below self) at (pos 0) }
    {
        let near = self.near;
        if at < NEAR {
            return near[at];
        }
        let far = self.far;
        far[at - NEAR]
    }

    // A push on a stack whose next word under the top is a near one.
    pub fn push(self, w: i32) -> Self
        requires { self.height < 8 }
        ensures { (view result ≡ w ∷ view self) × (result.height ≡ self.height + 1) }
    {
        let at = self.height;
        let top = self.top;
        let mut near = self.near;
        near[at] = top;
        let far = self.far;
        Self {
            top: w,
            near,
            far,
            height: at + 1,
        }
    }

    // A push on a higher stack.
    pub fn push_far(self, w: i32) -> Self
        requires { (8 ≤ self.height) × (self.height < 32) }
        ensures { (view result ≡ w ∷ view self) × (result.height ≡ self.height + 1) }
    {
        let height = self.height;
        let top = self.top;
        let near = self.near;
        let mut far = self.far;
        let at = height - NEAR;
        far[at] = top;
        Self {
            top: w,
            near,
            far,
            height: height + 1,
        }
    }

    pub fn pop(self) -> Popped
        requires { (0 < self.height) × (self.height ≤ 32) }
        ensures { (view self ≡ result.word ∷ view result.rest) × (self.height ≡ result.rest.height + 1) }
    {
        let at = self.height - 1;
        let top = self.word_below(at);
        let near = self.near;
        let far = self.far;
        Popped {
            word: self.top,
            rest: Stack {
                top,
                near,
                far,
                height: at,
            },
        }
    }

    pub fn negate(self) -> Self
        requires { (1 ≤ self.height) × (self.height ≤ 32) }
        ensures { (view result ≡ on_one neg_word (view self)) × (result.height ≡ self.height) }
    {
        let near = self.near;
        let far = self.far;
        let top = word::neg(self.top);
        Self {
            top,
            near,
            far,
            height: self.height,
        }
    }

    // What a table gives for the top word.
    pub fn look_up(self, table: &[u8]) -> Self
        requires { (1 ≤ self.height) × (self.height ≤ 32) × (area_ok table.now 0 ≡ true) }
        ensures { (view result ≡ on_one (table_word (area_rows table.now 0)) (view self)) ×
            (result.height ≡ self.height) }
    {
        let near = self.near;
        let far = self.far;
        let top = rows::look_up(table, self.top);
        Self {
            top,
            near,
            far,
            height: self.height,
        }
    }

    pub fn binary(self, operator: Binary) -> Self
        requires { (2 ≤ self.height) × (self.height ≤ 32) }
        ensures { (view result ≡ on_two (binary_word operator) (view self)) × (result.height + 1 ≡ self.height) }
    {
        let at = self.height - 1;
        let first = self.word_below(at);
        let near = self.near;
        let far = self.far;
        let top = word::binary(operator, first, self.top);
        Self {
            top,
            near,
            far,
            height: at,
        }
    }

    // The operator on the top word and w: what a push of w and then `binary` give.
    pub fn binary_with(self, operator: Binary, w: i32) -> Self
        requires { (1 ≤ self.height) × (self.height ≤ 32) }
        ensures { (view result ≡ on_two (binary_word operator) (w ∷ view self)) × (result.height ≡ self.height) }
    {
        let near = self.near;
        let far = self.far;
        let top = word::binary(operator, self.top, w);
        Self {
            top,
            near,
            far,
            height: self.height,
        }
    }

    // The condition lies deepest, then the word for a condition that is not 0.
    pub fn choose(self) -> Self
        requires { (3 ≤ self.height) × (self.height ≤ 32) }
        ensures { (view result ≡ on_three if_word (view self)) × (result.height + 2 ≡ self.height) }
    {
        let at = self.height - 2;
        let condition = self.word_below(at);
        let then = self.word_below(at + 1);
        let near = self.near;
        let far = self.far;
        let top = word::choose(condition, then, self.top);
        Self {
            top,
            near,
            far,
            height: at,
        }
    }
}
