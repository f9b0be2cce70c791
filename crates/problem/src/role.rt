// What an atom is to an action.
ghost use Rattle.problem.specs.Role.{role_char, role_named};
ghost use Rattle.sketch.specs.Letter.{Reads};

use sketch::letter::UnknownLetter;

#[derive(Clone, Copy, PartialEq, Eq, Debug)]
pub enum Role {
    Precondition,
    Addition,
    Deletion,
}

impl TryFrom<char> for Role {
    type Error = UnknownLetter;

    ghost try_from_gives = { Reads role_char role_named };

    fn try_from(letter: char) -> Result<Role, UnknownLetter> {
        match letter {
            'p' => Ok(Role::Precondition),
            'a' => Ok(Role::Addition),
            'd' => Ok(Role::Deletion),
            _ => Err(UnknownLetter),
        }
    }
}
