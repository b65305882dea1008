//! Laws of account files and of the stages that change them, each as the contract of a function that does nothing.
ghost use Rattle.osb_accounts.specs.Agreement.{ReadingIsInverse, TextsAgree};
ghost use Rattle.osb_accounts.specs.FaultOrder.{FaultsComeInOrder};
ghost use Rattle.osb_accounts.specs.Kept.{GroupsKeepLines, UsersKeepLines};

/// What is written is read as what it was.
pub fn reading_is_inverse()
    ensures law { ReadingIsInverse }
{}

/// What other stages find in account files is what these find.
pub fn texts_agree()
    ensures law { TextsAgree }
{}

/// Kept lines stay, byte for byte and in order, where groups are added.
pub fn groups_keep_lines()
    ensures law { GroupsKeepLines }
{}

/// Kept lines stay, byte for byte and in order, where users are added and changed.
pub fn users_keep_lines()
    ensures law { UsersKeepLines }
{}

/// Which fault a stage of users has.
pub fn faults_come_in_order()
    ensures law { FaultsComeInOrder }
{}
