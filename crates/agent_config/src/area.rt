//! The area of configuration files, brought to a configuration.

ghost use Rattle.std.specs.Prelude.{◌≡◌, ℕ, List, true, fold, IsTrue, IfOk, OnOk, OnErr, Some, None, IsSome, is_some};
ghost use Rattle.edge_devices.specs.declared.folders.Area.TheVariants.{Config};
ghost use Rattle.edge_devices.specs.Folders.{AreGood, SameAreas, Runs};
ghost use Rattle.edge_devices.specs.Names.{are_good_names, is_good_name};
ghost use Rattle.std.specs.Str.{bytes_eq};
ghost use Rattle.std.specs.List.{list_all, list_any};
ghost use Rattle.agent_config.specs.Config.{AreFiles, Leaves, file_name, has_good_name, with_file, files_of};

use edge_devices::{Area, Folder, FolderFail};
use plain_values::{AgentConfigFile, AgentConfigMap, NoMemory, Pair, Plain, Text};
use std::alloc::Global;

// The file's name in the folder.
fn name_of(alloc: Global, key: &Text) -> Result<Text, NoMemory>
    ensures { IfOk result (λ name. name ≡ file_name key.now) }
{
    if key.as_str().is_empty() {
        return Text::from_str(alloc, "config");
    }
    key.copy(alloc)
}

// Writes a file of the configuration.
fn write_file<F: Folder>(
    alloc: Global,
    folder: &mut F,
    file: &Pair<AgentConfigFile>,
) -> Result<(), FolderFail>
    requires { IsTrue (is_good_name (file_name file.now.key)) }
    ensures files { OnOk result (IsTrue (F.state folder.new).told → AreFiles ((F.state folder.new).files Config) (with_file ((F.state folder.old).files Config) file.now)) }
    ensures others { SameAreas Config (F.state folder.old).files (F.state folder.new).files }
    ensures calls { Runs (F.state folder.old) (F.state folder.new) result }
{
    let name = name_of(alloc, &file.key)?;
    folder.write(alloc, Area::Config, &name, &file.value.body)?;
    Ok(())
}

// Writes all files of the configuration, in their order.
fn write_files<F: Folder>(
    alloc: Global,
    folder: &mut F,
    files: &[Pair<AgentConfigFile>],
) -> Result<(), FolderFail>
    requires { list_all has_good_name files.now ≡ true }
    ensures files { OnOk result (IsTrue (F.state folder.new).told → AreFiles ((F.state folder.new).files Config) (fold with_file ((F.state folder.old).files Config) files.now)) }
    ensures others { SameAreas Config (F.state folder.old).files (F.state folder.new).files }
    ensures calls { Runs (F.state folder.old) (F.state folder.new) result }
{
    for file in files {
        write_file(alloc, folder, file)?;
    }
    Ok(())
}

// Whether the configuration has a file of that name in the folder.
fn has_file(files: &[Pair<AgentConfigFile>], name: &Text) -> bool
    ensures { result ≡ list_any (λ file. bytes_eq (file_name file.key) name.now) files.now }
{
    files.iter().any(|file| is_name_of(&file.key, name))
}

// Whether the file with that key has that name in the folder.
fn is_name_of(key: &Text, name: &Text) -> bool
    ensures { result ≡ bytes_eq (file_name key.now) name.now }
{
    if key.as_str().is_empty() {
        return name.as_str() == "config";
    }
    key.same(name)
}

// Removes the files of these names that are not the configuration's.
fn remove_all_but<F: Folder>(
    alloc: Global,
    folder: &mut F,
    files: &[Pair<AgentConfigFile>],
    names: &[Text],
) -> Result<(), FolderFail>
    requires { AreGood names.now }
    ensures removed { OnOk result (IsTrue (F.state folder.new).told → Leaves files.now names.now ((F.state folder.old).files Config) ((F.state folder.new).files Config)) }
    ensures others { SameAreas Config (F.state folder.old).files (F.state folder.new).files }
    ensures calls { Runs (F.state folder.old) (F.state folder.new) result }
{
    for name in names {
        if !has_file(files, name) {
            folder.remove(alloc, Area::Config, name)?;
        }
    }
    Ok(())
}

// Brings the area to the files of the configuration: all are written, and then the others are removed.
pub(crate) fn bring<F: Folder>(
    alloc: Global,
    folder: &mut F,
    config: &AgentConfigMap,
) -> Result<(), FolderFail>
    requires { IsTrue (are_good_names config.now.config_map) }
    ensures files { OnOk result (IsTrue (F.state folder.new).told → AreFiles ((F.state folder.new).files Config) (files_of config.now.config_map)) }
    ensures others { SameAreas Config (F.state folder.old).files (F.state folder.new).files }
    ensures calls { Runs (F.state folder.old) (F.state folder.new) result }
{
    let files = config.config_map.as_slice();
    write_files(alloc, folder, files)?;
    let names = folder.names(alloc, Area::Config)?;
    remove_all_but(alloc, folder, files, names.as_slice())?;
    Ok(())
}
